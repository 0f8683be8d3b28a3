//! The laws of the format, each a public function with an empty body.
ghost use Rattle.bmx_image.specs.Laws.{ReadingIsDetermined, ImageIsReadAgain, ImageHasOneSpelling, NumberHasOneSpelling};

/// The law that bytes have one reading: the objects of an image, or the first item that doesn't fit
/// and why. It does nothing.
pub fn reading_is_determined()
    ensures { ReadingIsDetermined }
{}

/// The law that what an image spells is read as that image. It does nothing.
pub fn image_is_read_again()
    ensures { ImageIsReadAgain }
{}

/// The law that no other bytes than an image's spelling are read as that image. It does nothing.
pub fn image_has_one_spelling()
    ensures { ImageHasOneSpelling }
{}

/// The law that the bytes of a number are the only ones of that length that read as it. It does
/// nothing.
pub fn number_has_one_spelling()
    ensures { NumberHasOneSpelling }
{}
