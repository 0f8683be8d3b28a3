//! A script as text.
ghost use Rattle.std.specs.Prelude.{◌≡◌, ◌-◌, [], ◌++◌, ◌∷◌, replicate, codes, string_bytes, IfOk, OnOk, Ok};
ghost use Rattle.bmx_numerals.specs.Numerals.{numeral};
ghost use Rattle.bmx_script.specs.Spelling.{word_of as word_of_lem, register_word, operand_word, verb_word, operand_words, from_words, fate_words, spaced, spelling, printed};
ghost use Rattle.bmx_script.specs.Grammar.{AreNumbered, IsReading, script_text};

use crate::lines::{BunchWords, Fate, Line, LineKind};
use crate::scripts::Script;
use bmx_numerals::{push_integer, push_number};
use bmx_types::{BunchNo, Command, NoMemory, NodeNo, Operand, Text};
use std::alloc::{AllocError, Global};

/// Prints a script: its lines at their own numbers, each with a line feed, and empty lines for those
/// that were skipped between them. Linear in the length of the text.
pub fn print_script(alloc: Global, script: &Script) -> Result<Text, NoMemory>
    ensures text { IfOk result (λ text. text ≡ script_text script.now) }
    ensures read { IfOk result (λ text. IsReading text (Ok script.now)) }
{
    let mut text = String::new(alloc);
    push_lines(&mut text, script.bunches(), script.lines().as_slice())?;
    Ok(Text::from_string(text))
}

/// Adds all lines of a script.
fn push_lines(text: &mut String, bunches: &BunchWords, lines: &[Line]) -> Result<(), AllocError>
    requires { AreNumbered 0 20001 lines.now }
    ensures { OnOk result (string_bytes text.new ≡ string_bytes text.old ++ printed bunches.now 1 lines.now) }
{
    let mut number = 1;
    for line in lines {
        push_empty_lines(text, number, line.number)?;
        push_line(text, bunches, &line.what)?;
        text.push_str("\n")?;
        number = line.number + 1;
    }
    Ok(())
}

/// Adds empty lines, from a line number up to another.
fn push_empty_lines(text: &mut String, from: u32, to: u32) -> Result<(), AllocError>
    ensures { OnOk result (string_bytes text.new ≡ string_bytes text.old ++ replicate (to - from) 10) }
{
    for _number in from..to {
        text.push_str("\n")?;
    }
    Ok(())
}

/// Adds a line, without its line feed.
fn push_line(text: &mut String, bunches: &BunchWords, what: &LineKind) -> Result<(), AllocError>
    ensures { OnOk result (string_bytes text.new ≡ string_bytes text.old ++ spelling bunches.now what.now) }
{
    match what {
        LineKind::Version => text.push_str("bmx 1"),
        LineKind::Nodes { count } => push_key(text, "nodes", u64::from(*count)),
        LineKind::Bunch { word, file } => push_bunch(text, word, file),
        LineKind::Segments { limit } => push_key(text, "segments", u64::from(*limit)),
        LineKind::Table {
            from,
            to,
            number,
            fate,
        } => {
            push_key(text, "table", u64::from(from.get()))?;
            push_number_word(text, u64::from(to.get()))?;
            push_number_word(text, *number)?;
            push_fate(text, *fate)
        }
        LineKind::TablesLose { every } => push_key(text, "tables lose every", u64::from(*every)),
        LineKind::Save { bunch, file } => {
            text.push_str("save")?;
            push_word(text, word_of(bunches, *bunch))?;
            push_word(text, file.as_str())
        }
        LineKind::Phase => text.push_str("phase"),
        LineKind::Quiet => text.push_str("quiet"),
        LineKind::Do { node, command } => {
            push_node(text, *node, verb(command))?;
            push_operands(text, bunches, command)
        }
        LineKind::Collect { node, bunch } => {
            push_node(text, *node, "collect")?;
            push_word(text, word_of(bunches, *bunch))
        }
        LineKind::Sweep { node } => push_node(text, *node, "sweep"),
        LineKind::Settle => text.push_str("settle"),
    }
}

/// Adds a node and what it does.
fn push_node(text: &mut String, node: NodeNo, verb: &str) -> Result<(), AllocError>
    ensures { OnOk result (string_bytes text.new ≡ string_bytes text.old ++ (numeral node ++ 32 ∷ verb.now)) }
{
    push_number(text, u64::from(node.get()))?;
    push_word(text, verb)
}

/// Adds a bunch line.
fn push_bunch(text: &mut String, word: &Text, file: &Option<Text>) -> Result<(), AllocError>
    ensures { OnOk result (string_bytes text.new ≡ string_bytes text.old ++ (codes "bunch" ++ spaced (word.now ∷ from_words file.now))) }
{
    text.push_str("bunch")?;
    push_word(text, word.as_str())?;
    match file {
        None => Ok(()),
        Some(file) => {
            push_word(text, "from")?;
            push_word(text, file.as_str())
        }
    }
}

/// Adds how often a table is taken.
fn push_fate(text: &mut String, fate: Fate) -> Result<(), AllocError>
    ensures { OnOk result (string_bytes text.new ≡ string_bytes text.old ++ spaced (fate_words fate)) }
{
    match fate.times {
        0 => push_word(text, "lose"),
        1 => {
            push_word(text, "after")?;
            push_number_word(text, u64::from(fate.phase))
        }
        2 => push_word(text, "twice"),
        _ => push_word(text, "thrice"),
    }
}

/// What a command does.
fn verb(command: &Command) -> &'static str
    ensures { result.now ≡ verb_word command.now }
{
    match command {
        Command::New { .. } => "new",
        Command::Copy { .. } => "copy",
        Command::Drop { .. } => "drop",
        Command::Read { .. } => "read",
        Command::Write { .. } => "write",
        Command::Done { .. } => "done",
        Command::Set { .. } => "set",
        Command::Add { .. } => "add",
        Command::Get { .. } => "get",
        Command::Show { .. } => "show",
        Command::Same { .. } => "same",
    }
}

/// Adds what a command does that to.
fn push_operands(
    text: &mut String,
    bunches: &BunchWords,
    command: &Command,
) -> Result<(), AllocError>
    ensures { OnOk result (string_bytes text.new ≡ string_bytes text.old ++ spaced (operand_words bunches.now command.now)) }
{
    match *command {
        Command::New {
            register,
            bunch,
            size,
        } => {
            push_register(text, register)?;
            push_word(text, word_of(bunches, bunch))?;
            push_number_word(text, u64::from(size))
        }
        Command::Copy { register, value } => {
            push_two(text, bunches, Operand::Register(register), value)
        }
        Command::Drop { register } => push_register(text, register),
        Command::Read { on } => push_operand(text, bunches, on),
        Command::Write { on } => push_operand(text, bunches, on),
        Command::Done { on } => push_operand(text, bunches, on),
        Command::Set { on, index, value } => {
            push_place(text, bunches, on, index)?;
            push_operand(text, bunches, value)
        }
        Command::Add { on, index, by } => {
            push_place(text, bunches, on, index)?;
            text.push_str(" ")?;
            push_integer(text, by)
        }
        Command::Get {
            register,
            on,
            index,
        } => {
            push_register(text, register)?;
            push_place(text, bunches, on, index)
        }
        Command::Show { on, index } => push_place(text, bunches, on, index),
        Command::Same { left, right } => push_two(text, bunches, left, right),
    }
}

/// Adds two operands.
fn push_two(
    text: &mut String,
    bunches: &BunchWords,
    left: Operand,
    right: Operand,
) -> Result<(), AllocError>
    ensures { OnOk result (string_bytes text.new ≡ string_bytes text.old ++ spaced (operand_word bunches.now left ∷ operand_word bunches.now right ∷ [])) }
{
    push_operand(text, bunches, left)?;
    push_operand(text, bunches, right)
}

/// Adds an operand and the number of its field.
fn push_place(
    text: &mut String,
    bunches: &BunchWords,
    on: Operand,
    index: u8,
) -> Result<(), AllocError>
    ensures { OnOk result (string_bytes text.new ≡ string_bytes text.old ++ spaced (operand_word bunches.now on ∷ numeral index ∷ [])) }
{
    push_operand(text, bunches, on)?;
    push_number_word(text, u64::from(index))
}

/// Adds an operand.
fn push_operand(text: &mut String, bunches: &BunchWords, operand: Operand) -> Result<(), AllocError>
    ensures { OnOk result (string_bytes text.new ≡ string_bytes text.old ++ 32 ∷ operand_word bunches.now operand) }
{
    match operand {
        Operand::Register(register) => push_register(text, register),
        Operand::Anchor(bunch) => {
            text.push_str(" @")?;
            text.push_str(word_of(bunches, bunch))
        }
        Operand::Int(integer) => {
            text.push_str(" ")?;
            push_integer(text, integer)
        }
        Operand::Null => text.push_str(" null"),
    }
}

/// Adds a register.
fn push_register(text: &mut String, register: u8) -> Result<(), AllocError>
    ensures { OnOk result (string_bytes text.new ≡ string_bytes text.old ++ 32 ∷ register_word register) }
{
    text.push_str(" r")?;
    push_number(text, u64::from(register))
}

/// Adds words and a number.
fn push_key(text: &mut String, words: &str, number: u64) -> Result<(), AllocError>
    ensures { OnOk result (string_bytes text.new ≡ string_bytes text.old ++ (words.now ++ 32 ∷ numeral number)) }
{
    text.push_str(words)?;
    push_number_word(text, number)
}

/// Adds a number.
fn push_number_word(text: &mut String, number: u64) -> Result<(), AllocError>
    ensures { OnOk result (string_bytes text.new ≡ string_bytes text.old ++ 32 ∷ numeral number) }
{
    text.push_str(" ")?;
    push_number(text, number)
}

/// Adds a word.
fn push_word(text: &mut String, word: &str) -> Result<(), AllocError>
    ensures { OnOk result (string_bytes text.new ≡ string_bytes text.old ++ 32 ∷ word.now) }
{
    text.push_str(" ")?;
    text.push_str(word)
}

/// The word of a bunch, and nothing where there is no such bunch.
fn word_of(bunches: &BunchWords, bunch: BunchNo) -> &str
    ensures { result.now ≡ word_of_lem bunches.now bunch }
{
    let words = bunches.as_slice();
    match words.get(usize::from(bunch.get())) {
        Some(word) => word.as_str(),
        None => "",
    }
}
