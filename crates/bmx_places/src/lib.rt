//! Where objects lie in every legal history of a store, whatever the interleaving: the blocks of words that nodes have
//! handed out, that what letters tell of them never clashes, and that no letter is stray. It has definitions and laws
//! alone.
#![tactic(auto)]

mod laws;

pub use laws::{
    blocks_are_kept, laws_tell, next_is_taken, no_info_clashes, no_letter_is_stray, one_place,
    one_shape,
};
