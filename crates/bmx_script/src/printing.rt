//! A line of output, made without memory.
ghost use Rattle.std.specs.Prelude.{◌≡◌, ◌+◌, ◌≤◌, ◌++◌, ◌∷◌, [], length, true, IfOk};
ghost use Rattle.bmx_numerals.specs.Numerals.{numeral, signed_numeral};
ghost use Rattle.bmx_script.specs.Printing.{is_ascii, name_text, value_text, refusal_text, answer_text, line_text};

use bmx_numerals::{write_integer, write_number};
use bmx_types::{Name, NoMemory, NodeNo, Refusal, Text, Val};
use std::alloc::Global;
use std::marker::Model;
use std::str;

/// An answer that is printed.
#[derive(Clone, Copy, Debug, PartialEq, Eq)]
pub enum Shown {
    Value(Val),
    Yes,
    No,
    Refused(Refusal),
}

/// How many bytes a line of output may have.
const MOST_BYTES: usize = 96;

/// A line of output, which takes no memory. Contracts see its bytes.
#[derive(Drop)]
pub struct ShownLine {
    /// It stands at the end of these.
    bytes: [u8; MOST_BYTES],
    /// Where it begins.
    start: usize,
}

impl Model for ShownLine {
    ghost use Rattle.std.specs.Prelude.{◌≡◌, ℕ, ◌≤◌, List, drop, true};
    ghost use Rattle.bmx_script.specs.Printing.{is_ascii};

    ghost Value = { List ℕ };

    ghost view = { λ l. drop l.start l.bytes };

    ghost invariant = { λ l. (l.start ≤ 96) × (is_ascii (drop l.start l.bytes) ≡ true) };
}

/// A line of output: the node, the line of the script and the answer, with its line feed.
pub fn shown_line(node: NodeNo, line: u32, answer: &Shown) -> ShownLine
    ensures { result ≡ line_text node line answer.now }
{
    let mut shown = ShownLine::new();
    shown.put_text("\n");
    shown.put_answer(answer);
    shown.put_text(" ");
    shown.put_number(u64::from(line));
    shown.put_text(" ");
    shown.put_number(u64::from(node.get()));
    shown
}

/// The same as a text of its own.
pub fn print_line(alloc: Global, node: NodeNo, line: u32, answer: &Shown) -> Result<Text, NoMemory>
    ensures { IfOk result (λ text. text ≡ line_text node line answer.now) }
{
    Text::from_str(alloc, shown_line(node, line, answer).as_str())
}

impl ShownLine {
    /// Nothing yet. A line is put together from its end.
    fn new() -> ShownLine
        ensures { result ≡ [] }
    {
        ShownLine {
            bytes: [0; MOST_BYTES],
            start: MOST_BYTES,
        }
    }

    /// The line as text.
    pub fn as_str(&self) -> &str
        ensures { result.now ≡ self.now }
    {
        match str::from_utf8(&self.bytes[self.start..]) {
            Ok(text) => text,
            Err(_) => unreachable!(),
        }
    }

    /// Puts a text in front.
    fn put_text(&mut self, text: &str)
        requires room { length text.now + length self.old ≤ 96 }
        requires ascii { is_ascii text.now ≡ true }
        ensures { self.new ≡ text.now ++ self.old }
    {
        let start = self.start - text.len();
        self.bytes[start..self.start].copy_from_slice(text.as_bytes());
        self.start = start;
    }

    /// Puts a number in front.
    fn put_number(&mut self, number: u64)
        requires { length self.old ≤ 75 }
        ensures text { self.new ≡ numeral number ++ self.old }
        ensures short { length self.new ≤ length self.old + 20 }
    {
        self.start = write_number(number, &mut self.bytes, self.start);
    }

    /// Puts an integer in front.
    fn put_integer(&mut self, integer: i64)
        requires { length self.old ≤ 75 }
        ensures text { self.new ≡ signed_numeral integer ++ self.old }
        ensures short { length self.new ≤ length self.old + 21 }
    {
        self.start = write_integer(integer, &mut self.bytes, self.start);
    }

    /// Puts an answer in front.
    fn put_answer(&mut self, answer: &Shown)
        requires { length self.old ≤ 1 }
        ensures text { self.new ≡ answer_text answer.now ++ self.old }
        ensures short { length self.new ≤ length self.old + 41 }
    {
        match answer {
            Shown::Value(value) => self.put_value(value),
            Shown::Yes => self.put_text("yes"),
            Shown::No => self.put_text("no"),
            Shown::Refused(why) => {
                self.put_text(refusal_word(*why));
                self.put_text("refused ");
            }
        }
    }

    /// Puts a value in front.
    fn put_value(&mut self, value: &Val)
        requires { length self.old ≤ 1 }
        ensures text { self.new ≡ value_text value.now ++ self.old }
        ensures short { length self.new ≤ length self.old + 41 }
    {
        match value {
            Val::Null => self.put_text("null"),
            Val::Int(integer) => self.put_integer(*integer),
            Val::Ref(name) => self.put_name(*name),
        }
    }

    /// Puts a name in front.
    fn put_name(&mut self, name: Name)
        requires { length self.old ≤ 1 }
        ensures text { self.new ≡ name_text name ++ self.old }
        ensures short { length self.new ≤ length self.old + 41 }
    {
        self.put_number(name.count());
        self.put_text(".");
        self.put_number(u64::from(name.node().get()));
    }
}

fn refusal_word(why: Refusal) -> &'static str
    ensures word { result.now ≡ refusal_text why }
    ensures short { length result.now ≤ 6 }
    ensures ascii { is_ascii result.now ≡ true }
{
    match why {
        Refusal::Empty => "empty",
        Refusal::NoToken => "token",
        Refusal::Index => "index",
        Refusal::Held => "held",
        Refusal::Number => "number",
        Refusal::Full => "full",
    }
}
