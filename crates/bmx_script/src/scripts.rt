//! A whole script, read line by line.
ghost use Rattle.std.specs.Prelude.{◌≡◌, ◌==◌, ◌≢◌, ◌+◌, ◌^◌, ◌<◌, ◌≤◌, [], ◌∷◌, length, IfOk, IfErr, IfSome, OnOk, Ok, Err};
ghost use Rattle.std.specs.List.{position_from};
ghost use Rattle.bmx_script.specs.Grammar.{AreScript, nodes_of, bunches_of, limit_of, lines_of, is_comment as is_comment_lem, is_long as is_long_lem, is_skipped as is_skipped_lem};
ghost use Rattle.bmx_script.specs.Reading.{IsAnswer, ForBad};
ghost use Rattle.bmx_script.specs.Inside.Reader.{ReadsOn, IsSound, end_of, noted, cause_of as cause_of_lem};

use crate::knowledge::{Knowledge, Section};
use crate::lines::{Bad, BadCause, BunchWords, Line, LineKind, Lines};
use crate::reading::read_line;
use bmx_numerals::Misfit;
use bmx_types::{Items, NoMemory};
use memchr::memchr;
use std::alloc::Global;
use std::marker::Model;

/// Why bytes were read as no script.
#[derive(Clone, Copy, Debug, PartialEq, Eq)]
pub enum ScriptError {
    NoMemory,
    Bad(Bad),
}

impl From<NoMemory> for ScriptError {
    ghost use Rattle.std.specs.Prelude.{◌≡◌};
    ghost use Rattle.bmx_script.specs.declared.scripts.ScriptError.TheVariants as errors;

    ghost from_gives = { λ _ e. e ≡ errors.NoMemory };

    fn from(_error: NoMemory) -> ScriptError {
        ScriptError::NoMemory
    }
}

/// A script: its lines in order, each of which may stand where it stands. Contracts see the lines.
#[derive(Debug, Drop)]
pub struct Script {
    lines: Lines,
    known: Knowledge,
}

impl Model for Script {
    ghost use Rattle.std.specs.Prelude.{List, ◌≡◌};
    ghost use Rattle.bmx_script.specs.declared.lines.Line.{Line};
    ghost use Rattle.bmx_script.specs.Grammar.{AreScript, known_after_all, nothing_known};

    ghost Value = { List Line };

    ghost view = { λ s. s.lines };

    ghost invariant = { λ s. AreScript s.lines × (s.known ≡ known_after_all nothing_known s.lines) };
}

impl Script {
    /// How many nodes it has, from 1 to 8.
    pub fn nodes(&self) -> u8
        ensures value { result ≡ nodes_of self.now }
        ensures range { (0 < result) × (result ≤ 8) }
    {
        self.known.nodes
    }

    /// The words of its 1 to 16 bunches, by number.
    pub fn bunches(&self) -> &BunchWords
        ensures value { result.now ≡ bunches_of self.now }
        ensures range { (0 < length result.now) × (length result.now ≤ 16) }
    {
        &self.known.bunches
    }

    /// How many segments a node may make, from 1 to 65,535: 4,096 unless a line says another number.
    pub fn limit(&self) -> u32
        ensures value { result ≡ limit_of self.now }
        ensures range { (0 < result) × (result ≤ 65535) }
    {
        self.known.limit.unwrap_or(4096)
    }

    /// Its lines in order, without those that are skipped.
    pub fn lines(&self) -> &Lines
        ensures lines { result.now ≡ self.now }
        ensures script { AreScript self.now }
    {
        &self.lines
    }
}

/// A reader of a script, line by line.
#[derive(Drop)]
struct Reader {
    known: Knowledge,
    lines: Lines,
    /// The number of the next line.
    number: u32,
    /// How many bytes stand before it.
    start: usize,
}

/// Reads a script: its lines, or the first line that is bad and why. Linear in the number of bytes.
pub fn read_script(alloc: Global, bytes: &[u8]) -> Result<Script, ScriptError>
    ensures { IsAnswer bytes.now result }
{
    let mut reader = Reader {
        known: Knowledge::new(alloc),
        lines: Items::new(alloc),
        number: 1,
        start: 0,
    };
    let mut rest = bytes;
    while !rest.is_empty() {
        let (text, after) = first_line(rest);
        reader.take(alloc, text)?;
        rest = after;
    }
    reader.finish()
}

/// The first line of a text, and what is behind its line feed.
#[inline(always)]
fn first_line(bytes: &[u8]) -> (&[u8], &[u8])
    requires { 0 < length bytes.now }
    ensures lines { lines_of bytes.now ≡ result.0.now ∷ lines_of result.1.now }
    ensures shorter { length result.1.now < length bytes.now }
{
    match line_feed_in(bytes) {
        Some(at) => (&bytes[..at], &bytes[at + 1..]),
        None => (bytes, &bytes[bytes.len()..]),
    }
}

/// Where the first line feed stands.
#[inline(always)]
fn line_feed_in(bytes: &[u8]) -> Option<usize>
    ensures found { result ≡ position_from (λ c. c == 10) 0 bytes.now }
    ensures within { IfSome result (λ at. at < length bytes.now) }
{
    memchr(b'\n', bytes)
}

impl Reader {
    /// Goes on over a line.
    #[inline(always)]
    fn take(&mut self, alloc: Global, text: &[u8]) -> Result<(), ScriptError>
        requires { IsSound self.old }
        ensures on { OnOk result ((texts : _) (answer : _) → ReadsOn self.new texts answer → ReadsOn self.old (text.now ∷ texts) answer) }
        ensures sound { OnOk result (IsSound self.new) }
        ensures bad { IfErr result (ForBad (λ why. (texts : _) → ReadsOn self.old (text.now ∷ texts) (Err why))) }
    {
        if self.is_long(text) {
            return Err(self.bad(BadCause::Long));
        }
        if !self.is_skipped(text) {
            match read_line(alloc, &self.known, text)? {
                Ok(what) => self.note(alloc, what)?,
                Err(why) => return Err(self.bad(cause_of(why))),
            }
        }
        self.number += 1;
        self.start += text.len() + 1;
        Ok(())
    }

    /// Keeps a line of the script.
    #[inline(always)]
    fn note(&mut self, alloc: Global, what: LineKind) -> Result<(), NoMemory>
        ensures { OnOk result (self.new ≡ noted self.old what) }
    {
        self.known.learn(alloc, &what)?;
        let number = self.number;
        self.lines.push(Line { number, what })
    }

    /// Why the script is refused, where the next line is bad.
    fn bad(&self, cause: BadCause) -> ScriptError
        ensures { result ≡ ScriptError.Bad (record { line = self.now.number; cause = cause }) }
    {
        let line = self.number;
        ScriptError::Bad(Bad { line, cause })
    }

    /// Whether a line here is too far behind in the script.
    #[inline(always)]
    fn is_long(&self, text: &[u8]) -> bool
        requires { self.now.start ≤ 2 ^ 20 }
        ensures { result ≡ is_long_lem self.now.number (end_of self.now text.now) }
    {
        self.number > 20_000 || text.len() >= (1 << 20) - self.start
    }

    /// Whether a line here is empty or a comment.
    #[inline(always)]
    fn is_skipped(&self, text: &[u8]) -> bool
        ensures { result ≡ is_skipped_lem self.now.number text.now }
    {
        self.number > 1 && is_comment(text)
    }

    /// The script, where its head stands.
    fn finish(self) -> Result<Script, ScriptError>
        requires { IsSound self }
        ensures ok { IfOk result (λ script. ReadsOn self [] (Ok script)) }
        ensures bad { IfErr result (ForBad (λ why. ReadsOn self [] (Err why))) }
        ensures memory { result ≢ Err ScriptError.NoMemory }
    {
        if self.known.section < Section::Bunches as u8 {
            return Err(self.bad(BadCause::End));
        }
        Ok(Script {
            lines: self.lines,
            known: self.known,
        })
    }
}

/// Whether a line is empty or a comment.
#[inline(always)]
fn is_comment(text: &[u8]) -> bool
    ensures { result ≡ is_comment_lem text.now }
{
    matches!(text, [] | [b'#', ..])
}

/// What is wrong with a line of which no word is read, or one outside its range.
fn cause_of(why: Misfit) -> BadCause
    ensures { result ≡ cause_of_lem why }
{
    match why {
        Misfit::Form => BadCause::Form,
        Misfit::Range => BadCause::Range,
    }
}
