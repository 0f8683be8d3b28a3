//! A line's words, and what they say. It sees one line, and what is known before it.
ghost use Rattle.std.specs.Prelude.{◌≡◌, ◌≤◌, ◌<◌, [], ◌∷◌, length, true, IfOk, IfSome, IfNone};
ghost use Rattle.std.specs.List.{list_all, position_from, slice_split};
ghost use Rattle.bmx_numerals.specs.Words.{read_below};
ghost use Rattle.bmx_script.specs.Grammar.{is_bunch_word as is_bunch_word_lem, is_word_byte as is_word_byte_lem, begins_with_letter as begins_with_letter_lem};
ghost use Rattle.bmx_script.specs.Inside.Reader.{HasRoom};
ghost use Rattle.bmx_script.specs.Inside.Parsing.{is_space, read_register, read_bunch, read_source, read_value, begins_as_source as begins_as_source_lem, read_place, of_one, of_two, of_three, read_command, placed_line, head_line as head_line_lem, setting_line as setting_line_lem, phase_line as phase_line_lem, read_version, read_nodes, read_segments, declared_bunch, read_line as read_line_lem};

use crate::knowledge::{Knowledge, Section, is_word};
use crate::lines::LineKind;
use bmx_numerals::{Misfit, both, integer, number_below, number_within};
use bmx_types::{BunchNo, Command, NoMemory, NodeNo, Operand, Text};
use std::alloc::Global;
use std::str;

/// What a line says by its words, on what is known before it. Linear in the line's length.
#[inline(always)]
pub(crate) fn read_line(
    alloc: Global,
    known: &Knowledge,
    text: &[u8],
) -> Result<Result<LineKind, Misfit>, NoMemory>
    requires { HasRoom known.now }
    ensures { IfOk result (λ line. line ≡ read_line_lem known.now text.now) }
{
    let Some((first, rest)) = first_word(text) else {
        return Ok(phase_line(known, text));
    };
    let Some((second, rest)) = first_verb(rest) else {
        return head_line(alloc, known, first, rest);
    };
    Ok(node_line(known, first, command(known, second, rest)))
}

/// The first word of a text and what is behind its space; None where the text has no space.
#[inline(always)]
fn first_word(text: &[u8]) -> Option<(&[u8], &[u8])>
    ensures some { IfSome result (λ parts. slice_split is_space text.now ≡ parts.0.now ∷ slice_split is_space parts.1.now) }
    ensures none { IfNone result (slice_split is_space text.now ≡ text.now ∷ []) }
{
    match space_in(text) {
        Some(at) => Some((&text[..at], &text[at + 1..])),
        None => None,
    }
}

/// Where the first space stands. Most words are short.
#[inline(always)]
fn space_in(text: &[u8]) -> Option<usize>
    ensures found { result ≡ position_from is_space 0 text.now }
    ensures within { IfSome result (λ at. at < length text.now) }
{
    match text {
        [b' ', _, _, _, ..] => Some(0),
        [_, b' ', _, _, ..] => Some(1),
        [_, _, b' ', _, ..] => Some(2),
        [_, _, _, b' ', ..] => Some(3),
        [a, b] if *a != b' ' && *b != b' ' => None,
        [a, b' ', _] if *a != b' ' => Some(1),
        _ => any_space_in(text),
    }
}

/// The same, wherever it stands.
#[inline(never)]
fn any_space_in(text: &[u8]) -> Option<usize>
    ensures found { result ≡ position_from is_space 0 text.now }
    ensures within { IfSome result (λ at. at < length text.now) }
{
    text.iter().position(|byte| *byte == b' ')
}

/// The first word of a text, which may well be a verb, and what is behind its space.
#[inline(always)]
fn first_verb(text: &[u8]) -> Option<(&[u8], &[u8])>
    ensures some { IfSome result (λ parts. slice_split is_space text.now ≡ parts.0.now ∷ slice_split is_space parts.1.now) }
    ensures none { IfNone result (slice_split is_space text.now ≡ text.now ∷ []) }
{
    match text {
        [b'c', b'o', b'p', b'y', b' ', rest @ ..] => Some((b"copy", rest)),
        [b'd', b'o', b'n', b'e', b' ', rest @ ..] => Some((b"done", rest)),
        [b'd', b'r', b'o', b'p', b' ', rest @ ..] => Some((b"drop", rest)),
        [b'r', b'e', b'a', b'd', b' ', rest @ ..] => Some((b"read", rest)),
        [b's', b'a', b'm', b'e', b' ', rest @ ..] => Some((b"same", rest)),
        [b's', b'h', b'o', b'w', b' ', rest @ ..] => Some((b"show", rest)),
        [b'w', b'r', b'i', b't', b'e', b' ', rest @ ..] => Some((b"write", rest)),
        _ => first_word(text),
    }
}

/// A command, by its verb and the text of what it does that to.
#[inline(always)]
fn command(known: &Knowledge, verb: &[u8], text: &[u8]) -> Result<Command, Misfit>
    requires { HasRoom known.now }
    ensures { result ≡ read_command known.now verb.now (slice_split is_space text.now) }
{
    let Some((a, rest)) = first_word(text) else {
        return command_of_one(known, verb, text);
    };
    match first_word(rest) {
        None => command_of_two(known, verb, a, rest),
        Some((b, c)) => command_of_three(known, verb, (a, b, c)),
    }
}

/// A line of one word: `phase` or `quiet`, in its place.
#[inline(always)]
fn phase_line(known: &Knowledge, word: &[u8]) -> Result<LineKind, Misfit>
    ensures { result ≡ phase_line_lem known.now word.now }
{
    if is_word(word, "phase") && known.may_follow(Section::Body) {
        Ok(LineKind::Phase)
    } else if is_word(word, "quiet") && known.may_follow(Section::Body) {
        Ok(LineKind::Quiet)
    } else {
        Err(Misfit::Form)
    }
}

/// A line of two words: a bunch, or a key and a number.
fn head_line(
    alloc: Global,
    known: &Knowledge,
    key: &[u8],
    word: &[u8],
) -> Result<Result<LineKind, Misfit>, NoMemory>
    ensures { IfOk result (λ line. line ≡ head_line_lem known.now key.now word.now) }
{
    if is_word(key, "bunch") && known.may_follow(Section::Bunches) && is_bunch_word(word) {
        return bunch_line(alloc, known, word);
    }
    Ok(setting_line(known, key, word))
}

/// `bmx 1`, `nodes N` or `segments L`, each in its place.
fn setting_line(known: &Knowledge, key: &[u8], word: &[u8]) -> Result<LineKind, Misfit>
    ensures { result ≡ setting_line_lem known.now key.now word.now }
{
    if is_word(key, "bmx") && known.may_follow(Section::Version) {
        version_line(word)
    } else if is_word(key, "nodes") && known.may_follow(Section::Nodes) {
        nodes_line(word)
    } else if is_word(key, "segments") && known.may_follow(Section::Plan) {
        segments_line(known, word)
    } else {
        Err(Misfit::Form)
    }
}

/// The version.
fn version_line(word: &[u8]) -> Result<LineKind, Misfit>
    ensures { result ≡ read_version word.now }
{
    if is_word(word, "1") {
        Ok(LineKind::Version)
    } else {
        Err(Misfit::Form)
    }
}

/// How many nodes there are.
fn nodes_line(word: &[u8]) -> Result<LineKind, Misfit>
    ensures { result ≡ read_nodes word.now }
{
    let count = number_within(word, 1, 8)? as u8;
    Ok(LineKind::Nodes { count })
}

/// How many segments a node may make.
fn segments_line(known: &Knowledge, word: &[u8]) -> Result<LineKind, Misfit>
    ensures { result ≡ read_segments known.now word.now }
{
    let (limit, ()) = both(number_within(word, 1, 65_535), known.first_limit())?;
    Ok(LineKind::Segments {
        limit: limit as u32,
    })
}

/// A bunch with a word of its own.
fn bunch_line(
    alloc: Global,
    known: &Knowledge,
    word: &[u8],
) -> Result<Result<LineKind, Misfit>, NoMemory>
    requires { is_bunch_word_lem word.now ≡ true }
    ensures { IfOk result (λ line. line ≡ declared_bunch known.now word.now) }
{
    if known.has(word) || known.bunches.len() >= 16 {
        return Ok(Err(Misfit::Range));
    }
    Ok(Ok(LineKind::Bunch {
        word: text_of(alloc, word)?,
        file: None,
    }))
}

/// The text of a bunch's word.
fn text_of(alloc: Global, word: &[u8]) -> Result<Text, NoMemory>
    requires { is_bunch_word_lem word.now ≡ true }
    ensures { IfOk result (λ text. text ≡ word.now) }
{
    match str::from_utf8(word) {
        Ok(text) => Text::from_str(alloc, text),
        Err(_) => unreachable!(),
    }
}

/// A line of a node: its number, and a command.
#[inline(always)]
fn node_line(
    known: &Knowledge,
    node: &[u8],
    command: Result<Command, Misfit>,
) -> Result<LineKind, Misfit>
    requires { HasRoom known.now }
    ensures { result ≡ placed_line known.now node.now command }
{
    if !known.may_follow(Section::Body) {
        return Err(Misfit::Form);
    }
    let (node, command) = both(node_number(known, node), command)?;
    Ok(LineKind::Do { node, command })
}

/// A node's number.
#[inline(always)]
fn node_number(known: &Knowledge, word: &[u8]) -> Result<NodeNo, Misfit>
    requires { HasRoom known.now }
    ensures { result ≡ read_below known.now.nodes word.now }
{
    let number = small_number(word, u16::from(known.nodes))?;
    NodeNo::new(number).ok_or(Misfit::Range)
}

/// `drop REG`, `read SRC`, `write SRC` and `done SRC`.
#[inline(always)]
fn command_of_one(known: &Knowledge, verb: &[u8], a: &[u8]) -> Result<Command, Misfit>
    requires { HasRoom known.now }
    ensures { result ≡ of_one known.now verb.now a.now }
{
    if is_word(verb, "drop") {
        let register = register(a)?;
        Ok(Command::Drop { register })
    } else if is_word(verb, "read") {
        let on = source(known, a)?;
        Ok(Command::Read { on })
    } else if is_word(verb, "write") {
        let on = source(known, a)?;
        Ok(Command::Write { on })
    } else if is_word(verb, "done") {
        let on = source(known, a)?;
        Ok(Command::Done { on })
    } else {
        Err(Misfit::Form)
    }
}

/// `copy REG VAL`, `show SRC I` and `same VAL VAL`.
#[inline(always)]
fn command_of_two(known: &Knowledge, verb: &[u8], a: &[u8], b: &[u8]) -> Result<Command, Misfit>
    requires { HasRoom known.now }
    ensures { result ≡ of_two known.now verb.now a.now b.now }
{
    if is_word(verb, "copy") {
        let (register, value) = both(register(a), value(known, b))?;
        Ok(Command::Copy { register, value })
    } else if is_word(verb, "show") {
        let (on, index) = place(known, a, b)?;
        Ok(Command::Show { on, index })
    } else if is_word(verb, "same") {
        let (left, right) = both(value(known, a), value(known, b))?;
        Ok(Command::Same { left, right })
    } else {
        Err(Misfit::Form)
    }
}

/// `new REG B S`, `set SRC I VAL`, `add SRC I K` and `get REG SRC I`.
#[inline(always)]
fn command_of_three(
    known: &Knowledge,
    verb: &[u8],
    words: (&[u8], &[u8], &[u8]),
) -> Result<Command, Misfit>
    requires { HasRoom known.now }
    ensures { result ≡ of_three known.now verb.now words.entry.0.now words.entry.1.now words.entry.2.now }
{
    let (a, b, c) = words;
    if is_word(verb, "new") {
        let names = both(register(a), bunch(known, b));
        let ((register, bunch), size) = both(names, small_number(c, 33))?;
        Ok(Command::New {
            register,
            bunch,
            size,
        })
    } else if is_word(verb, "set") {
        let ((on, index), value) = both(place(known, a, b), value(known, c))?;
        Ok(Command::Set { on, index, value })
    } else if is_word(verb, "add") {
        let ((on, index), by) = both(place(known, a, b), integer(c))?;
        Ok(Command::Add { on, index, by })
    } else if is_word(verb, "get") {
        let (register, (on, index)) = both(register(a), place(known, b, c))?;
        Ok(Command::Get {
            register,
            on,
            index,
        })
    } else {
        Err(Misfit::Form)
    }
}

/// A field of an object: a source and an index.
#[inline(always)]
fn place(known: &Knowledge, on: &[u8], index: &[u8]) -> Result<(Operand, u8), Misfit>
    requires { HasRoom known.now }
    ensures { result ≡ read_place known.now on.now index.now }
{
    both(source(known, on), small_number(index, 256))
}

/// A value: `null`, a source or an integer.
#[inline(always)]
fn value(known: &Knowledge, word: &[u8]) -> Result<Operand, Misfit>
    requires { HasRoom known.now }
    ensures { result ≡ read_value known.now word.now }
{
    if is_word(word, "null") {
        Ok(Operand::Null)
    } else if begins_as_source(word) {
        source(known, word)
    } else {
        Ok(Operand::Int(integer(word)?))
    }
}

/// Whether a word begins as a source does.
#[inline(always)]
fn begins_as_source(word: &[u8]) -> bool
    ensures { result ≡ begins_as_source_lem word.now }
{
    match word {
        [first, ..] => *first == b'@' || *first == b'r',
        [] => false,
    }
}

/// A source: a register, or `@` and a bunch's word, for its anchor.
#[inline(always)]
fn source(known: &Knowledge, word: &[u8]) -> Result<Operand, Misfit>
    requires { HasRoom known.now }
    ensures { result ≡ read_source known.now word.now }
{
    match word {
        [b'@', name @ ..] => Ok(Operand::Anchor(bunch(known, name)?)),
        _ => Ok(Operand::Register(register(word)?)),
    }
}

/// A register's number.
#[inline(always)]
fn register(word: &[u8]) -> Result<u8, Misfit>
    ensures { result ≡ read_register word.now }
{
    match word {
        [b'r', digits @ ..] => small_number(digits, 16),
        _ => Err(Misfit::Form),
    }
}

/// A bunch, by its word.
fn bunch(known: &Knowledge, word: &[u8]) -> Result<BunchNo, Misfit>
    requires { HasRoom known.now }
    ensures { result ≡ read_bunch known.now word.now }
{
    if !is_bunch_word(word) {
        return Err(Misfit::Form);
    }
    match known.position(word) {
        None => Err(Misfit::Range),
        Some(place) => match BunchNo::new(place as u8) {
            Some(bunch) => Ok(bunch),
            None => Err(Misfit::Range),
        },
    }
}

/// A number below a limit of at most 256.
#[inline(always)]
fn small_number(word: &[u8], limit: u16) -> Result<u8, Misfit>
    requires { limit ≤ 256 }
    ensures { result ≡ read_below limit word.now }
{
    Ok(number_below(word, u64::from(limit))? as u8)
}

/// Whether a word may be that of a bunch.
fn is_bunch_word(word: &[u8]) -> bool
    ensures { result ≡ is_bunch_word_lem word.now }
{
    begins_with_letter(word) && has_word_bytes(word) && word.len() <= 16
}

fn begins_with_letter(word: &[u8]) -> bool
    ensures { result ≡ begins_with_letter_lem word.now }
{
    match word {
        [first, ..] => first.is_ascii_lowercase(),
        [] => false,
    }
}

/// Whether each byte may stand in the word of a bunch.
fn has_word_bytes(word: &[u8]) -> bool
    ensures { result ≡ list_all is_word_byte_lem word.now }
{
    word.iter().all(|b| is_word_byte(*b))
}

fn is_word_byte(byte: u8) -> bool
    ensures { result ≡ is_word_byte_lem byte }
{
    byte.is_ascii_lowercase() || byte.is_ascii_digit() || byte == b'_'
}
