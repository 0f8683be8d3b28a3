//! The laws of growing histories, each a public function with an empty body.
ghost use Rattle.bmx_legal.specs.Laws.{EachMayFollow, FlightGrows, HistoryBegins, HistoryGrows};
ghost use Rattle.bmx_legal.specs.Cases.{LawsTell};

/// The law that a store opens with the history of no event, which is legal. It does nothing.
pub fn history_begins()
    ensures { HistoryBegins }
{}

/// The law that a legal history grows by a step that takes the first letter in flight. It does nothing.
pub fn history_grows()
    ensures { HistoryGrows }
{}

/// The law that an event of a legal history takes the first letter in flight, where it takes one, and adds at the end
/// those that it issues. It does nothing.
pub fn flight_grows()
    ensures { FlightGrows }
{}

/// The law that it grows in no other way: each event of a legal history with the stamp that its node's last stamp and
/// its letter give it may come next after those before it. It does nothing.
pub fn each_may_follow()
    ensures { EachMayFollow }
{}

/// The law that the others speak of something, and not of everything: a history worked by hand leads to stamps, and an
/// event that takes the letter in flight may come next, but not one that takes another. It does nothing.
pub fn laws_tell()
    ensures { LawsTell }
{}
