//! An image, as data.
ghost use Rattle.bmx_image.specs.Images.{IsImage};
ghost use Rattle.bmx_image.specs.Facts.{IsImage-prop};

use bmx_types::Items;

/// What a field of an object holds.
#[derive(Clone, Copy, Debug, PartialEq, Eq)]
pub enum ImageField {
    Null,
    Int(i64),
    /// A reference to the object of that index, from 0.
    Ref(u32),
}

/// The fields of an object, in order.
pub type ImageFields = Items<ImageField>;

/// An object of an image: its fields, at most 32.
#[derive(Debug, Drop)]
pub struct ImageObject {
    pub fields: ImageFields,
}

/// The objects of an image, in order.
pub type ImageObjects = Items<ImageObject>;

/// The objects of a bunch that its anchor reaches, 1 to 20,000. Object 0 is the anchor, with 32
/// fields, and the others stand in the order in which they are first mentioned, going over the
/// objects and their fields from the first.
#[derive(Debug, Drop)]
pub struct Image {
    pub objects: ImageObjects,
    ghost image: { IsImage objects } by { IsImage-prop objects },
}
