//! What a node shows of itself. It changes nothing.
ghost use Rattle.std.specs.Prelude.{◌≡◌, ◌==◌, ℕ, ◌<◌, length, find, filter_map, map, slice_get, AllPairs, Option, Some, IsSome, is_some, IfOk};
ghost use Rattle.std.specs.Option.{option_map, option_and_then};
ghost use Rattle.bmx_memory.specs.Shown.{shown, Object, known_with};
ghost use Rattle.bmx_protocol.specs.declared.views.Entry.{Entry as EntryOf};
ghost use Rattle.bmx_protocol.specs.Nodes.{Shows, entry_of};
ghost use Rattle.bmx_protocol.specs.Rules.{heard_field};
ghost use Rattle.bmx_token.specs.declared.parts.Part.{Part as PartOf};
ghost use Rattle.bmx_token.specs.Tokens.{IsInOrder};
ghost use Rattle.bmx_tokens.specs.Tables.{part_of, part_at};
ghost use Rattle.bmx_node.specs.Seen.{state_of};
ghost use Rattle.bmx_node.specs.Inside.Keeping.{Keeps};
ghost use Rattle.bmx_node.specs.Inside.Viewing.{entry_with};

use crate::holdings::Holdings;
use crate::node::Node;
use bmx_memory::Memory;
use bmx_msg::Field;
use bmx_protocol::{Entries, Entry, View, ViewField, ViewFields};
use bmx_token::Part;
use bmx_tokens::Tokens;
use bmx_types::{Items, Name, NoMemory, Vals};
use std::alloc::Global;

impl Node {
    /// All that the node shows, by names: the readers of an object, and those of whom it waits to hear, rise.
    /// Linear in what it has, and sorts the names.
    pub fn view(&self, alloc: Global) -> Result<View, NoMemory>
        ensures view { IfOk result (λ view. Shows self.now.holdings.store.nodes view (state_of self.now.holdings)) }
        ensures order { (name : ℕ) (p : PartOf) → part_of self.now.holdings.tokens name ≡ Some p → IsInOrder p }
    {
        self.holdings.view(alloc)
    }
}

impl Holdings {
    /// The same of what it has.
    #[tactic(auto, unfolding(crate::specs::Seen::state_of))]
    pub(crate) fn view(&self, alloc: Global) -> Result<View, NoMemory>
        requires { Keeps self.now }
        ensures { IfOk result (λ view. Shows self.now.store.nodes view (state_of self.now)) }
    {
        Ok(View {
            entries: entries(alloc, &self.memory, &self.tokens)?,
            registers: registers(alloc, &self.memory)?,
            records: self.mail.records(alloc)?,
            issued: self.mail.all_issued(alloc, self.store.nodes)?,
            taken: self.mail.all_taken(alloc, self.store.nodes)?,
            clock: self.clock,
            made: self.made,
        })
    }
}

/// An entry of each name that is known, by rising name.
fn entries(alloc: Global, memory: &Memory, tokens: &Tokens) -> Result<Entries, NoMemory>
    requires { (name : ℕ) → is_some (part_of tokens.now name) ≡ is_some ((shown memory.now).object name) }
    ensures rising { IfOk result (λ entries. AllPairs (λ (d e : EntryOf). d.name < e.name) entries) }
    ensures exact { IfOk result (λ entries. (name : ℕ) → find (λ (e : EntryOf). e.name == name) entries ≡ option_map (entry_of name) (known_with (shown memory.now).object (part_at tokens.now) name)) }
{
    let names = tokens.names(alloc)?;
    entries_of(alloc, memory, tokens, names.as_slice())
}

/// The entries of names, in their order.
fn entries_of(
    alloc: Global,
    memory: &Memory,
    tokens: &Tokens,
    names: &[Name],
) -> Result<Entries, NoMemory>
    requires { (name : ℕ) → is_some (part_of tokens.now name) ≡ is_some ((shown memory.now).object name) }
    ensures { IfOk result (λ entries. entries ≡ filter_map (entry_with (shown memory.now).object (part_of tokens.now)) names.now) }
{
    let mut entries: Entries = Items::new(alloc);
    for name in names {
        if let Some(part) = tokens.get(*name) {
            entries.push(entry(alloc, memory, *name, part)?)?;
        }
    }
    Ok(entries)
}

/// The entry of a name with its token.
fn entry(alloc: Global, memory: &Memory, name: Name, part: &Part) -> Result<Entry, NoMemory>
    requires { IsSome ((shown memory.now).object name) }
    ensures { IfOk result (λ e. entry_with (shown memory.now).object (λ _. Some part.now) name ≡ Some e) }
{
    let Some(info) = memory.info(name) else {
        unreachable!()
    };
    Ok(Entry {
        name,
        bunch: info.bunch,
        size: info.size,
        role: part.role,
        copy: copy_of(alloc, memory, name)?,
        held: part.held,
        want: part.want,
        ready: part.ready,
        due: part.due,
        readers: part.readers.copy(alloc)?,
        queue: part.queue.copy(alloc)?,
        waiting: part.waiting.copy(alloc)?,
    })
}

/// The fields of a name's copy, None where there is none.
fn copy_of(alloc: Global, memory: &Memory, name: Name) -> Result<Option<ViewFields>, NoMemory>
    ensures { IfOk result (λ copy. copy ≡ option_and_then (λ (o : Object). o.copy) ((shown memory.now).object name)) }
{
    if !memory.has_copy(name) {
        return Ok(None);
    }
    let fields = memory.fields(alloc, name)?;
    Ok(Some(shown_fields(alloc, fields.as_slice())?))
}

/// Fields as a view shows them.
fn shown_fields(alloc: Global, fields: &[Field]) -> Result<ViewFields, NoMemory>
    ensures { IfOk result (λ views. views ≡ map heard_field fields.now) }
{
    let mut views: ViewFields = Items::new(alloc);
    for field in fields {
        views.push(shown_field(field))?;
    }
    Ok(views)
}

/// A field as a view shows it.
fn shown_field(field: &Field) -> ViewField
    ensures { result ≡ heard_field field.now }
{
    match *field {
        Field::Null => ViewField::Null,
        Field::Int(number) => ViewField::Int(number),
        Field::Ref(info) => ViewField::Ref(info.name),
    }
}

/// What the 16 registers hold.
fn registers(alloc: Global, memory: &Memory) -> Result<Vals, NoMemory>
    ensures each { IfOk result (λ registers. length registers ≡ 16) }
    ensures same { IfOk result (λ registers. (r : ℕ) → r < 16 → slice_get registers r ≡ Some ((shown memory.now).register r)) }
{
    let mut registers: Vals = Items::new(alloc);
    for register in 0..16 {
        registers.push(memory.register(register))?;
    }
    Ok(registers)
}
