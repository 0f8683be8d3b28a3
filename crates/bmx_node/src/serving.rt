//! A token that is served, and the grant that comes of it.
ghost use Rattle.std.specs.Prelude.{◌≡◌, ℕ, ◌+◌, ◌≤◌, ◌++◌, List, true, length, IsSome, OnErr, IfOk};
ghost use Rattle.bmx_mail.specs.Mails.{MailState, CanIssue};
ghost use Rattle.bmx_token.specs.Transitions.{Serves};
ghost use Rattle.bmx_token.specs.Services.{service_of};
ghost use Rattle.bmx_token.specs.Tokens.{serve};
ghost use Rattle.bmx_token.specs.declared.answers.Service.TheVariants as service_is;
ghost use Rattle.bmx_tokens.specs.Tables.{part_of, part_at};
ghost use Rattle.bmx_protocol.specs.declared.inputs.NodeAnswer.TheVariants as answer;
ghost use Rattle.bmx_protocol.specs.Rules.{Draft, info_of, told_fields};
ghost use Rattle.bmx_msg.specs.Letters.{targets};
ghost use Rattle.bmx_mail.specs.Inside.Posts.{Posts};
ghost use Rattle.bmx_node.specs.Seen.{state_of, node_of};
ghost use Rattle.bmx_node.specs.Inside.Keeping.{Keeps, Frame};
ghost use Rattle.bmx_node.specs.Inside.Reacting.{Does, lies_at, operation_on};
ghost use Rattle.bmx_node.specs.Inside.Posting.{recalls, requests, is_read, is_move};

use crate::commands::request;
use crate::holdings::{Holdings, answer};
use bmx_mail::{Mail, Outbox};
use bmx_msg::{Field, Fields, Msg};
use bmx_protocol::{Done, NodeAnswer};
use bmx_token::{Ask, Served, Service};
use bmx_types::{Info, Name, NoMemory, NodeNo};

/// What a grant of an object brings.
struct Grant {
    info: Info,
    fields: Fields,
}

/// For how many names there must be room before a grant with these fields is posted, or taken in. Linear in
/// the fields.
pub(crate) fn names_brought(fields: &[Field]) -> Result<u32, NoMemory>
    ensures { IfOk result (λ n. n ≡ 1 + length (targets fields.now)) }
{
    let mut count = 1;
    for field in fields {
        if let Field::Ref(_info) = field {
            if count == u32::MAX {
                return Err(NoMemory);
            }
            count += 1;
        }
    }
    Ok(count)
}

impl Holdings {
    /// Serves the head of the queue of a name, where it can be served.
    pub(crate) fn serve(&mut self, name: Name, stamp: u64) -> Result<Done, NoMemory>
        requires { Keeps self.old }
        ensures does { IfOk result (λ done. Does stamp self.old (operation_on self.old Serves answer.Idle name) done self.new) }
        ensures err { OnErr result (node_of self.new ≡ node_of self.old) }
        ensures keeps { Keeps self.new }
        ensures frame { Frame self.old self.new }
    {
        let Some(part) = self.tokens.get(name) else {
            return Ok(self.tell(NodeAnswer::Idle));
        };
        match part.service(self.me) {
            Service::Idle => Ok(self.tell(NodeAnswer::Idle)),
            Service::Ready => self.make_ready(name),
            Service::Read(_) => self.grant_read(name, stamp),
            Service::Revokes => {
                let readers = part.readers.len();
                self.recall(name, stamp, readers)
            }
            Service::Moves(_) => {
                let asked = part.queue.len();
                self.hand_over(name, stamp, asked)
            }
        }
    }

    /// Lets the owner's own write be taken.
    fn make_ready(&mut self, name: Name) -> Result<Done, NoMemory>
        requires keeps { Keeps self.old }
        requires there { IsSome (part_of self.old.tokens name) }
        requires service { service_of (serve self.old.me (part_at self.old.tokens name)).1 ≡ service_is.Ready }
        ensures does { (stamp : ℕ) → IfOk result (λ done. Does stamp self.old (operation_on self.old Serves answer.Idle name) done self.new) }
        ensures err { OnErr result (node_of self.new ≡ node_of self.old) }
        ensures keeps { Keeps self.new }
        ensures frame { Frame self.old self.new }
    {
        let _served = self.tokens.serve(name)?;
        Ok(self.tell(NodeAnswer::Nil))
    }

    /// What a grant of an object brings, with room for the records of the names that it may give.
    fn grant(&mut self, name: Name) -> Result<Grant, NoMemory>
        requires keeps { Keeps self.old }
        requires there { IsSome (part_of self.old.tokens name) }
        ensures info { IfOk result (λ g. g.info ≡ info_of (state_of self.old) (lies_at self.old) name) }
        ensures fields { IfOk result (λ g. g.fields ≡ told_fields (state_of self.old) (lies_at self.old) name) }
        ensures room { IfOk result (λ g. 1 + length (targets g.fields) ≤ self.new.mail.spare) }
        ensures rest { self.new ≡ record self.old { mail = record self.old.mail { spare = self.new.mail.spare } } }
    {
        let fields = self.memory.fields(self.alloc, name)?;
        let Some(info) = self.memory.info(name) else {
            unreachable!()
        };
        let names = names_brought(fields.as_slice())?;
        self.mail.reserve(names)?;
        Ok(Grant { info, fields })
    }

    /// Grants a read to the head of the queue.
    fn grant_read(&mut self, name: Name, stamp: u64) -> Result<Done, NoMemory>
        requires keeps { Keeps self.old }
        requires there { IsSome (part_of self.old.tokens name) }
        requires service { is_read (service_of (serve self.old.me (part_at self.old.tokens name)).1) ≡ true }
        ensures does { IfOk result (λ done. Does stamp self.old (operation_on self.old Serves answer.Idle name) done self.new) }
        ensures err { OnErr result (node_of self.new ≡ node_of self.old) }
        ensures keeps { Keeps self.new }
        ensures frame { Frame self.old self.new }
    {
        let mut outbox = self.mail.outbox(self.alloc, stamp, 1)?;
        let Grant { info, fields } = self.grant(name)?;
        let Served::Read(to) = self.tokens.serve(name)? else {
            unreachable!()
        };
        self.mail
            .post(&mut outbox, to, Msg::ReadGrant { info, fields });
        Ok(answer(NodeAnswer::Nil, outbox))
    }

    /// Tells all readers to give up their copies. Linear in them.
    fn recall(&mut self, name: Name, stamp: u64, readers: usize) -> Result<Done, NoMemory>
        requires keeps { Keeps self.old }
        requires there { IsSome (part_of self.old.tokens name) }
        requires service { service_of (serve self.old.me (part_at self.old.tokens name)).1 ≡ service_is.Revokes }
        requires readers { readers ≡ length (part_at self.old.tokens name).readers }
        ensures does { IfOk result (λ done. Does stamp self.old (operation_on self.old Serves answer.Idle name) done self.new) }
        ensures err { OnErr result (node_of self.new ≡ node_of self.old) }
        ensures keeps { Keeps self.new }
        ensures frame { Frame self.old self.new }
    {
        let mut outbox = self.mail.outbox(self.alloc, stamp, readers)?;
        let Served::Revokes(nodes) = self.tokens.serve(name)? else {
            unreachable!()
        };
        post_recalls(&mut self.mail, &mut outbox, name, nodes.as_slice());
        Ok(answer(NodeAnswer::Nil, outbox))
    }

    /// Hands ownership to the head of the queue, and the rest of the queue behind it. Linear in the queue.
    fn hand_over(&mut self, name: Name, stamp: u64, asked: usize) -> Result<Done, NoMemory>
        requires keeps { Keeps self.old }
        requires there { IsSome (part_of self.old.tokens name) }
        requires service { is_move (service_of (serve self.old.me (part_at self.old.tokens name)).1) ≡ true }
        requires asked { asked ≡ length (part_at self.old.tokens name).queue }
        ensures does { IfOk result (λ done. Does stamp self.old (operation_on self.old Serves answer.Idle name) done self.new) }
        ensures err { OnErr result (node_of self.new ≡ node_of self.old) }
        ensures keeps { Keeps self.new }
        ensures frame { Frame self.old self.new }
    {
        let mut outbox = self.mail.outbox(self.alloc, stamp, asked)?;
        let Grant { info, fields } = self.grant(name)?;
        let Served::Moves { to, rest } = self.tokens.serve(name)? else {
            unreachable!()
        };
        self.memory.clear_copy(name);
        self.mail
            .post(&mut outbox, to, Msg::WriteGrant { info, fields });
        post_asks(&mut self.mail, &mut outbox, to, name, rest.as_slice());
        Ok(answer(NodeAnswer::Nil, outbox))
    }
}

/// Posts to each node that its copy of the object is to be given up.
fn post_recalls(mail: &mut Mail, outbox: &mut Outbox, name: Name, nodes: &[NodeNo])
    requires room { length nodes.now ≤ outbox.old.room }
    requires counts { CanIssue mail.old outbox.old.room }
    ensures posts { (first : MailState) (drafts : List Draft) → Posts first mail.old outbox.old.stamp drafts outbox.old.letters → Posts first mail.new outbox.old.stamp (drafts ++ recalls name nodes.now) outbox.new.letters }
    ensures stamp { outbox.new.stamp ≡ outbox.old.stamp }
{
    for node in nodes {
        mail.post(outbox, *node, Msg::Inval { name });
    }
}

/// Posts requests for the token of a name to a node.
fn post_asks(mail: &mut Mail, outbox: &mut Outbox, to: NodeNo, name: Name, asks: &[Ask])
    requires room { length asks.now ≤ outbox.old.room }
    requires counts { CanIssue mail.old outbox.old.room }
    ensures posts { (first : MailState) (drafts : List Draft) → Posts first mail.old outbox.old.stamp drafts outbox.old.letters → Posts first mail.new outbox.old.stamp (drafts ++ requests to name asks.now) outbox.new.letters }
    ensures stamp { outbox.new.stamp ≡ outbox.old.stamp }
{
    for ask in asks {
        mail.post(outbox, to, request(name, ask.asker, ask.mode));
    }
}
