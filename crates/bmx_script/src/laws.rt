//! The laws of the language, each a public function with an empty body.
ghost use Rattle.bmx_script.specs.Laws.{ReadingIsDetermined, PrefixIsEnough};

/// The law that bytes have one reading: the lines of a script, or the first bad line and why. It does
/// nothing.
pub fn reading_is_determined()
    ensures { ReadingIsDetermined }
{}

/// The law that a text is read as its first 2^20 + 1 bytes are, however long it is: a reader of more has
/// read enough. It does nothing.
pub fn prefix_is_enough()
    ensures { PrefixIsEnough }
{}
