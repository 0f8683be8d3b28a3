//! What is known of a script before a line of it. It sees no bytes.
ghost use Rattle.std.specs.Prelude.{◌≡◌, ◌++◌, OnOk, OnErr};
ghost use Rattle.std.specs.List.{list_any, position_from};
ghost use Rattle.bmx_script.specs.Grammar.{same_word, nothing_known, known_after, may_follow, section_of as section_of_lem};
ghost use Rattle.bmx_script.specs.Inside.Parsing.{number_of, first_limit};

use crate::lines::{BunchWords, LineKind};
use bmx_numerals::Misfit;
use bmx_types::{Items, NoMemory};
use std::alloc::Global;

/// The sections of a script, in their order.
#[derive(Clone, Copy, Debug, PartialEq, Eq)]
pub(crate) enum Section {
    Version = 1,
    Nodes = 2,
    Bunches = 3,
    Plan = 4,
    Body = 5,
    End = 6,
}

/// What is known before a line of a script.
#[derive(Debug, Drop)]
pub struct Knowledge {
    /// The number of the last line's section, 0 before the first line.
    pub section: u8,
    /// How many nodes there are, 0 while that isn't known.
    pub nodes: u8,
    /// The words of the bunches so far, by number.
    pub bunches: BunchWords,
    /// How many segments a node may make, where a line has said it.
    pub limit: Option<u32>,
}

impl Knowledge {
    /// Before the first line.
    pub(crate) fn new(alloc: Global) -> Knowledge
        ensures { result ≡ nothing_known }
    {
        Knowledge {
            section: 0,
            nodes: 0,
            bunches: Items::new(alloc),
            limit: None,
        }
    }

    /// Whether a line of that section may stand here.
    pub(crate) fn may_follow(&self, section: Section) -> bool
        ensures { result ≡ may_follow self.now.section (number_of section) }
    {
        let (before, here) = (self.section, section as u8);
        let last = if before < Section::Bunches as u8 {
            before + 1
        } else {
            Section::End as u8
        };
        let again = before == Section::Plan as u8 || before == Section::Body as u8;
        (before < here && here <= last) || (before == here && again)
    }

    /// The number of the bunch of that word.
    pub(crate) fn position(&self, word: &[u8]) -> Option<usize>
        ensures { result ≡ position_from (same_word word.now) 0 self.now.bunches }
    {
        let words = self.bunches.as_slice();
        words.iter().position(|known| is_word(word, known.as_str()))
    }

    /// Whether a bunch has that word.
    pub(crate) fn has(&self, word: &[u8]) -> bool
        ensures { result ≡ list_any (same_word word.now) self.now.bunches }
    {
        let words = self.bunches.as_slice();
        words.iter().any(|known| is_word(word, known.as_str()))
    }

    /// Whether a line may say how many segments there are, since none has said it.
    pub(crate) fn first_limit(&self) -> Result<(), Misfit>
        ensures { result ≡ first_limit self.now.limit }
    {
        match self.limit {
            None => Ok(()),
            Some(_) => Err(Misfit::Range),
        }
    }

    /// Learns what a line says.
    pub(crate) fn learn(&mut self, alloc: Global, what: &LineKind) -> Result<(), NoMemory>
        ensures ok { OnOk result (self.new ≡ known_after self.old what.now) }
        ensures err { OnErr result (self.new ≡ self.old) }
    {
        match what {
            LineKind::Nodes { count } => self.nodes = *count,
            LineKind::Bunch { word, .. } => self.bunches.push(word.copy(alloc)?)?,
            LineKind::Segments { limit } => self.limit = Some(*limit),
            _ => {}
        }
        self.section = section_of(what) as u8;
        Ok(())
    }
}

/// In which section of a script a line stands.
fn section_of(what: &LineKind) -> Section
    ensures { number_of result ≡ section_of_lem what.now }
{
    match what {
        LineKind::Version => Section::Version,
        LineKind::Nodes { .. } => Section::Nodes,
        LineKind::Bunch { .. } => Section::Bunches,
        LineKind::Segments { .. }
        | LineKind::Table { .. }
        | LineKind::TablesLose { .. }
        | LineKind::Save { .. } => Section::Plan,
        LineKind::Phase
        | LineKind::Quiet
        | LineKind::Do { .. }
        | LineKind::Collect { .. }
        | LineKind::Sweep { .. } => Section::Body,
        LineKind::Settle => Section::End,
    }
}

/// Whether a word is that text.
#[inline(always)]
pub(crate) fn is_word(word: &[u8], text: &str) -> bool
    ensures { result ≡ same_word word.now text.now }
{
    match (word, text.as_bytes()) {
        ([first, word @ ..], [letter, text @ ..]) => *first == *letter && are_same(word, text),
        (word, text) => word.len() == text.len(),
    }
}

/// Whether two words are the same. Those of two to four bytes take no call.
#[inline(always)]
fn are_same(word: &[u8], text: &[u8]) -> bool
    ensures { result ≡ same_word word.now text.now }
{
    match (word, text) {
        ([a, b], [y, z]) => *a == *y && *b == *z,
        ([a, b, c], [x, y, z]) => *a == *x && *b == *y && *c == *z,
        ([a, b, c, d], [w, x, y, z]) => *a == *w && *b == *x && *c == *y && *d == *z,
        (word, text) => word == text,
    }
}
