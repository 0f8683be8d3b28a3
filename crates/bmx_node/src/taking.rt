//! A letter that is taken.
ghost use Rattle.std.specs.Prelude.{◌≡◌, ℕ, ◌+◌, ◌<◌, ◌≤◌, ◌^◌, ◌||◌, ◌∷◌, ◌++◌, [], if◌then◌else◌, true, false, length, map, filter_map, Some, None, IsSome, OnOk, OnErr, IfOk};
ghost use Rattle.bmx_memory.specs.Shown.{shown};
ghost use Rattle.bmx_protocol.specs.Nodes.{Setting, Known};
ghost use Rattle.bmx_protocol.specs.Changes.{Knows, Hears, Takes, after_change, after_changes};
ghost use Rattle.bmx_protocol.specs.Rules.{infos, only, info_in, heard_field, got_change};
ghost use Rattle.bmx_protocol.specs.Steps.{is_taken};
ghost use Rattle.bmx_protocol.specs.Strays.{is_bad_letter, some_clash};
ghost use Rattle.bmx_protocol.specs.Places.{with_all_learnt};
ghost use Rattle.bmx_protocol.specs.declared.inputs.NodeAnswer.TheVariants as answer;
ghost use Rattle.bmx_msg.specs.declared.letters.Msg.TheVariants as msg;
ghost use Rattle.bmx_node.specs.Seen.{state_of, places_of, node_of, Suits};
ghost use Rattle.bmx_node.specs.Inside.Keeping.{Keeps, Frame};
ghost use Rattle.bmx_node.specs.Inside.Reacting.{Reacts, letter_on, request_msg, grant_msg};
ghost use Rattle.bmx_node.specs.Inside.Taking.{CanTake, IsNext, Took};
ghost use Rattle.bmx_node.specs.Inside.Hearing.{CanHear, Rooms, KeepsBut, OnlyRoom};
ghost use Rattle.bmx_types.specs.declared.numbers.Mode.{Mode};
ghost use Rattle.bmx_types.specs.declared.numbers.Mode.TheVariants as mode_is;
ghost use Rattle.bmx_token.specs.declared.answers.Requested.TheVariants as requested_is;
ghost use Rattle.bmx_token.specs.declared.answers.Revoked.TheVariants as revoked_is;
ghost use Rattle.bmx_token.specs.Tokens.{request, inval, granted};
ghost use Rattle.bmx_token.specs.Transitions.{Grants};
ghost use Rattle.bmx_tokens.specs.Tables.{part_of, part_at};
ghost use Rattle.bmx_mail.specs.Mails.{Tracks, KnowsBunch, taken_of};

use crate::commands::request;
use crate::holdings::{Holdings, answer};
use crate::serving::names_brought;
use crate::strays::Screen;
use bmx_mail::Mail;
use bmx_msg::{Fields, Letter, Msg};
use bmx_protocol::{Done, NodeAnswer};
use bmx_token::{Part, Requested, Revoked, Role};
use bmx_types::{Info, Mode, Name, NoMemory, NodeNo};

/// Who sends a letter, its number, and the stamp of the step that takes it.
#[derive(Clone, Copy)]
pub struct Taking {
    pub from: NodeNo,
    pub seq: u64,
    pub stamp: u64,
}

impl Holdings {
    /// Whether a letter from a node is stray by itself.
    fn is_bad(&self, from: NodeNo, letter: &Letter) -> bool
        ensures { (st : Setting) → Suits st self.now → result ≡ is_bad_letter st self.now.me (state_of self.now) from letter.now }
    {
        let screen = Screen {
            store: self.store,
            me: self.me,
            made: self.made,
        };
        screen.is_bad_letter(from, self.mail.taken(from), letter)
    }

    /// Whether a letter from a node is stray by itself, or its Infos clash with what the node has.
    pub(crate) fn is_stray(&self, from: NodeNo, letter: &Letter) -> bool
        requires { Keeps self.now }
        ensures is { (st : Setting) → Suits st self.now → result ≡ (is_bad_letter st self.now.me (state_of self.now) from letter.now || some_clash self.now.me from (state_of self.now).known (places_of self.now) (infos letter.now.msg)) }
        ensures can { (st : Setting) → Suits st self.now → result ≡ false → CanTake self.now from letter.now.msg }
        ensures next { (st : Setting) → Suits st self.now → result ≡ false → IsNext self.now from letter.now.seq }
    {
        let _seq = letter.seq;
        self.is_bad(from, letter) || self.memory.clashes(&letter.msg)
    }

    /// Takes in a letter that isn't stray by itself and clashes with nothing.
    pub(crate) fn take(&mut self, taking: Taking, msg: &Msg) -> Result<Done, NoMemory>
        requires keeps { Keeps self.old }
        requires can { CanTake self.old taking.from msg.now }
        requires next { IsNext self.old taking.from taking.seq }
        ensures takes { IfOk result (λ done. Took taking.stamp self.old taking.from taking.seq msg.now done self.new) }
        ensures err { OnErr result (node_of self.new ≡ node_of self.old) }
        ensures keeps { Keeps self.new }
        ensures frame { Frame self.old self.new }
    {
        match msg {
            Msg::ReadReq { name, asker } => self.asked(taking, *name, *asker, Mode::Read),
            Msg::WriteReq { name, asker } => self.asked(taking, *name, *asker, Mode::Write),
            Msg::ReadGrant { info, fields } => self.granted(taking, Mode::Read, info, fields),
            Msg::WriteGrant { info, fields } => self.granted(taking, Mode::Write, info, fields),
            Msg::Inval { name } => self.recalled(taking, *name),
            Msg::InvAck { name } => self.returned(taking, *name),
        }
    }

    /// A node asks for the token of a name.
    fn asked(
        &mut self,
        taking: Taking,
        name: Name,
        asker: NodeNo,
        mode: Mode,
    ) -> Result<Done, NoMemory>
        requires keeps { Keeps self.old }
        requires next { IsNext self.old taking.from taking.seq }
        ensures takes { IfOk result (λ done. Took taking.stamp self.old taking.from taking.seq (request_msg name asker mode) done self.new) }
        ensures err { OnErr result (node_of self.new ≡ node_of self.old) }
        ensures keeps { Keeps self.new }
        ensures frame { Frame self.old self.new }
    {
        let Some(part) = self.tokens.get(name) else {
            return Ok(self.tell(NodeAnswer::Stray));
        };
        let most = letters_to_ask(part);
        let mut outbox = self.mail.outbox(self.alloc, taking.stamp, most)?;
        match self.tokens.request(name, asker, mode)? {
            Requested::Stray => return Ok(self.tell(NodeAnswer::Stray)),
            Requested::Queued => {}
            Requested::Forward(parent) => {
                self.mail
                    .post(&mut outbox, parent, request(name, asker, mode));
            }
        }
        self.mail.count_taken(taking.from);
        Ok(answer(NodeAnswer::Nil, outbox))
    }

    /// A grant comes: where objects lie is learnt, and the copy is taken.
    fn granted(
        &mut self,
        taking: Taking,
        mode: Mode,
        info: &Info,
        fields: &Fields,
    ) -> Result<Done, NoMemory>
        requires keeps { Keeps self.old }
        requires can { CanTake self.old taking.from (grant_msg mode info.now fields.now) }
        requires next { IsNext self.old taking.from taking.seq }
        ensures takes { IfOk result (λ done. Took taking.stamp self.old taking.from taking.seq (grant_msg mode info.now fields.now) done self.new) }
        ensures err { OnErr result (node_of self.new ≡ node_of self.old) }
        ensures keeps { Keeps self.new }
        ensures frame { Frame self.old self.new }
    {
        let Some(part) = self.tokens.get(info.name) else {
            return Ok(self.tell(NodeAnswer::Stray));
        };
        if !part.awaits(mode) {
            return Ok(self.tell(NodeAnswer::Stray));
        }
        self.take_grant(taking, mode, info, fields)
    }

    /// The same of a grant for which the token waits.
    fn take_grant(
        &mut self,
        taking: Taking,
        mode: Mode,
        info: &Info,
        fields: &Fields,
    ) -> Result<Done, NoMemory>
        requires keeps { Keeps self.old }
        requires can { CanTake self.old taking.from (grant_msg mode info.now fields.now) }
        requires next { IsNext self.old taking.from taking.seq }
        requires there { IsSome (part_of self.old.tokens info.now.name) }
        requires awaits { (granted (part_at self.old.tokens info.now.name) taking.from mode).1 ≡ true }
        ensures takes { IfOk result (λ done. Took taking.stamp self.old taking.from taking.seq (grant_msg mode info.now fields.now) done self.new) }
        ensures err { OnErr result (node_of self.new ≡ node_of self.old) }
        ensures keeps { Keeps self.new }
        ensures frame { Frame self.old self.new }
    {
        let names = names_brought(fields.as_slice())?;
        self.make_room(names, records_brought(mode))?;
        let _taken = self.tokens.granted(info.name, taking.from, mode)?;
        self.bring(taking.from, info, fields);
        note_grant(&mut self.mail, taking, mode, info);
        Ok(self.tell(NodeAnswer::Nil))
    }

    /// Makes room to hear of so many names, and for so many records.
    fn make_room(&mut self, names: u32, records: u32) -> Result<(), NoMemory>
        ensures rooms { OnOk result (Rooms self.new names) }
        ensures records { OnOk result (records ≤ self.new.mail.spare) }
        ensures rest { OnlyRoom self.old self.new }
    {
        self.memory.reserve(names)?;
        self.tokens.reserve(names as usize)?;
        self.mail.reserve(records)
    }

    /// Hears of the objects that a grant tells of, and has the copy that it brings. Takes no memory. Linear in
    /// the fields.
    fn bring(&mut self, from: NodeNo, info: &Info, fields: &Fields)
        requires keeps { KeepsBut info.now.name self.old }
        requires there { IsSome (part_of self.old.tokens info.now.name) }
        requires can { CanHear self.old from (info.now ∷ filter_map info_in fields.now) }
        requires size { length fields.now ≡ info.now.size }
        requires rooms { Rooms self.old (length (filter_map info_in fields.now) + 1) }
        ensures state { (k : Known) → (state_of self.old).known info.now.name ≡ Some k → state_of self.new ≡ after_change (after_changes (state_of self.old) (map (Hears from) (info.now ∷ filter_map info_in fields.now))) (Knows info.now.name (record k { copy = Some (map heard_field fields.now) })) }
        ensures places { places_of self.new ≡ with_all_learnt (places_of self.old) (info.now ∷ filter_map info_in fields.now) }
        ensures mail { self.new.mail ≡ self.old.mail }
        ensures keeps { Keeps self.new }
        ensures frame { Frame self.old self.new }
    {
        self.hear(from, info);
        self.hear_fields(from, fields.as_slice());
        self.memory.install(info.name, fields);
    }

    /// An owner wants the copy back.
    fn recalled(&mut self, taking: Taking, name: Name) -> Result<Done, NoMemory>
        requires keeps { Keeps self.old }
        requires next { IsNext self.old taking.from taking.seq }
        ensures takes { IfOk result (λ done. Took taking.stamp self.old taking.from taking.seq (msg.Inval name) done self.new) }
        ensures err { OnErr result (node_of self.new ≡ node_of self.old) }
        ensures keeps { Keeps self.new }
        ensures frame { Frame self.old self.new }
    {
        let Some(part) = self.tokens.get(name) else {
            return self.return_nothing(taking, name);
        };
        let from = taking.from;
        let copy = self.memory.has_copy(name);
        let most = letters_to_recall(part, copy);
        let mut outbox = self.mail.outbox(self.alloc, taking.stamp, most)?;
        match self.tokens.inval(name, from, copy)? {
            None => return Ok(self.tell(NodeAnswer::Stray)),
            Some(Revoked::AtRelease) => {}
            Some(Revoked::Now) => {
                self.memory.clear_copy(name);
                self.mail.post(&mut outbox, from, Msg::InvAck { name });
            }
        }
        self.mail.count_taken(from);
        Ok(answer(NodeAnswer::Nil, outbox))
    }

    /// The same of an object that isn't known: there is no copy, and that is told.
    fn return_nothing(&mut self, taking: Taking, name: Name) -> Result<Done, NoMemory>
        requires keeps { Keeps self.old }
        requires next { IsNext self.old taking.from taking.seq }
        requires unknown { part_of self.old.tokens name ≡ None }
        ensures takes { IfOk result (λ done. Took taking.stamp self.old taking.from taking.seq (msg.Inval name) done self.new) }
        ensures err { OnErr result (node_of self.new ≡ node_of self.old) }
        ensures keeps { Keeps self.new }
        ensures frame { Frame self.old self.new }
    {
        let mut outbox = self.mail.outbox(self.alloc, taking.stamp, 1)?;
        self.mail
            .post(&mut outbox, taking.from, Msg::InvAck { name });
        self.mail.count_taken(taking.from);
        Ok(answer(NodeAnswer::Nil, outbox))
    }

    /// A reader gave its copy up.
    fn returned(&mut self, taking: Taking, name: Name) -> Result<Done, NoMemory>
        requires keeps { Keeps self.old }
        requires next { IsNext self.old taking.from taking.seq }
        ensures takes { IfOk result (λ done. Took taking.stamp self.old taking.from taking.seq (msg.InvAck name) done self.new) }
        ensures err { OnErr result (node_of self.new ≡ node_of self.old) }
        ensures keeps { Keeps self.new }
        ensures frame { Frame self.old self.new }
    {
        if self.tokens.get(name).is_none() || !self.tokens.ack(name, taking.from)? {
            return Ok(self.tell(NodeAnswer::Stray));
        }
        self.mail.count_taken(taking.from);
        Ok(self.tell(NodeAnswer::Nil))
    }
}

/// For how many letters a request needs room: for one where it is passed on.
fn letters_to_ask(part: &Part) -> usize
    ensures { (me asker : ℕ) (m : Mode) (parent : ℕ) → (request me part.now asker m).1 ≡ requested_is.Forward parent → result ≡ 1 }
{
    match part.role {
        Role::Owner => 0,
        Role::Parent(_) => 1,
    }
}

/// For how many letters a recall needs room: for none where the copy is given up later.
fn letters_to_recall(part: &Part, copy: bool) -> usize
    ensures { (from : ℕ) → (inval part.now from copy).1 ≡ Some revoked_is.Now → result ≡ 1 }
{
    if copy && (part.held.is_some() || part.ready) {
        return 0;
    }
    1
}

/// For how many records a grant needs room: for one where it hands the object over.
fn records_brought(mode: Mode) -> u32
    ensures { mode ≡ mode_is.Write → result ≡ 1 }
{
    match mode {
        Mode::Read => 0,
        Mode::Write => 1,
    }
}

/// Counts the letter that brought a grant, and notes who handed the object over, where it does.
fn note_grant(mail: &mut Mail, taking: Taking, mode: Mode, info: &Info)
    requires room { mode ≡ mode_is.Write → 0 < mail.old.spare }
    requires count { taken_of mail.old taking.from + 1 < 2 ^ 64 }
    ensures { Tracks mail.old mail.new (got_change taking.from taking.seq info.now.name (Grants mode) ++ Takes taking.from ∷ []) (KnowsBunch info.now.name info.now.bunch) }
{
    mail.count_taken(taking.from);
    match mode {
        Mode::Read => {}
        Mode::Write => mail.take_over(info.name, info.bunch, taking.from, taking.seq),
    }
}
