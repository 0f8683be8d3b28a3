//! The laws of a token's state, each a public function with an empty body.
ghost use Rattle.bmx_token.specs.Laws.{KeepsOrder};

/// The law that every call keeps the readers, and who is waited for, in rising order. It does nothing.
pub fn keeps_order()
    ensures { KeepsOrder }
{}
