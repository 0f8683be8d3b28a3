//! The laws of one object's token, each a public function with an empty body.
ghost use Rattle.bmx_token_model.specs.Laws.{ClearedIsUnneeded, EachOwesOneAnswer, EachWantIsPlaced, GiftsAreRecorded, IdleIsUnneeded, NoLetterIsStray, NobodyAsksItself, OwnershipIsOne, ParentsLeadToTheOwner, ReadersAreListed, TablesKeepTheLaws, TokensExclude, WhoIsAskedAnswers};

/// The law that an object is nowhere or has one owner, whatever steps are taken from an opening. It
/// does nothing.
pub fn ownership_is_one()
    ensures { OwnershipIsOne }
{}

/// The law that while a node holds an object's token for writing no other node holds it, whatever steps
/// are taken from an opening. It does nothing.
pub fn tokens_exclude()
    ensures { TokensExclude }
{}

/// The law that the owner lists its readers: each node that has a copy beside it, or to which a grant to
/// read is in flight, whatever steps are taken from an opening. It does nothing.
pub fn readers_are_listed()
    ensures { ReadersAreListed }
{}

/// The law that what each node wants that isn't ready stands at exactly one spot, a request in flight, a
/// place in a queue or a grant in flight, and that nothing else is requested or granted. It does nothing.
pub fn each_want_is_placed()
    ensures { EachWantIsPlaced }
{}

/// The law that each node that is waited for owes exactly one answer: to a recall in flight, at its
/// release, or in flight back; and that no other node owes any. It does nothing.
pub fn each_owes_one_answer()
    ensures { EachOwesOneAnswer }
{}

/// The law that nobody has to do with itself: no node is its own parent or reader, or asks itself to read, and
/// no letter from a node to itself has a note. (An owner does queue its own want to write.) It does nothing.
pub fn nobody_asks_itself()
    ensures { NobodyAsksItself }
{}

/// The law that each letter that gives the object is in a record of its receiver at its sender, which knows
/// the object, and that records are within the letters issued and taken. It does nothing.
pub fn gifts_are_recorded()
    ensures { GiftsAreRecorded }
{}

/// The law that who is asked knows the object, and has a record of the request's sender or ownership in front
/// of the request. It does nothing.
pub fn who_is_asked_answers()
    ensures { WhoIsAskedAnswers }
{}

/// The law that no letter is stray by what it says of the token: the first in flight to a node from another has
/// its transition there. It does nothing.
pub fn no_letter_is_stray()
    ensures { NoLetterIsStray }
{}

/// The law that each parent may be asked, and that parents lead to the owner, or to who gave ownership in
/// a letter in flight, in fewer steps than there are nodes. It does nothing.
pub fn parents_lead_to_the_owner()
    ensures { ParentsLeadToTheOwner }
{}

/// The law that nothing needs what a node has of an object where nothing happens about its token and it
/// has no record. It does nothing.
pub fn idle_is_unneeded()
    ensures { IdleIsUnneeded }
{}

/// The law that nothing needs a record that a table may clear, however late and often tables are taken, but
/// never before the letters that its maker had issued until then. It does nothing.
pub fn cleared_is_unneeded()
    ensures { ClearedIsUnneeded }
{}

/// The law that steps with tables are a run of the object's model, so that each law of its runs holds of
/// them. It does nothing.
pub fn tables_keep_the_laws()
    ensures { TablesKeepTheLaws }
{}
