//! The laws of where objects lie, each a public function with an empty body.
ghost use Rattle.bmx_places.specs.Laws.{BlocksAreKept, OneShape, OnePlace, NoInfoClashes, NextIsTaken, NoLetterIsStray};
ghost use Rattle.bmx_places.specs.Cases.{LawsTell};

/// The law that in every legal history a store has a ledger: the blocks of words that its nodes have handed out to
/// objects share no word and lie in segments, a name with its number of moves has one address, and each place of an
/// entry, each header, each record and what each letter in flight tells of an object belongs to one. It does nothing.
#[tactic(auto, using(crate::proofs::Always::blocks_are_kept))]
pub fn blocks_are_kept()
    ensures { BlocksAreKept }
{}

/// The law that in every legal history a name has one bunch and one size wherever it stands: in entries, in letters
/// in flight, and its bunch in records. It does nothing.
#[tactic(auto, using(crate::proofs::Always::one_shape))]
pub fn one_shape()
    ensures { OneShape }
{}

/// The law that in every legal history a name with its number of moves has one address over all entries and letters
/// in flight, and that nobody has heard of more moves than its owner has, or the grant of ownership in flight. It
/// does nothing.
#[tactic(auto, using(crate::proofs::Always::one_place))]
pub fn one_place()
    ensures { OnePlace }
{}

/// The law that in every legal history nothing that a letter in flight tells of places clashes with what its receiver
/// knows. It does nothing.
#[tactic(auto, using(crate::proofs::Always::no_info_clashes))]
pub fn no_info_clashes()
    ensures { NoInfoClashes }
{}

/// The law that in every legal history a step that takes the next letter between two nodes of the store isn't
/// answered that it is stray, at whatever stamp. It does nothing.
pub fn next_is_taken()
    ensures { NextIsTaken }
{}

/// The law that no event of a legal history is answered that it is stray. It does nothing.
pub fn no_letter_is_stray()
    ensures { NoLetterIsStray }
{}

/// The law that the others speak of something, and not of everything: there is a legal history whose letters tell of
/// places and are taken, and one with an outcome changed, not legal, in which each of them fails. It does nothing.
#[tactic(auto, using(crate::proofs::Applied::laws_tell))]
pub fn laws_tell()
    ensures { LawsTell }
{}
