//! Images: the objects of a bunch as bytes. An image has one spelling, and bytes come to one image or
//! to the first item that doesn't fit, with its place and why.
#![tactic(auto)]

mod faults;
mod gathering;
mod images;
mod laws;
mod reading;
#[cfg(test)]
mod tests;
mod writing;

pub use faults::{BadImage, ImageCause, ImageError};
pub use gathering::{Fields, GatherError, gather};
pub use images::{Image, ImageField, ImageFields, ImageObject, ImageObjects};
pub use laws::{
    image_has_one_spelling, image_is_read_again, number_has_one_spelling, reading_is_determined,
};
pub use reading::decode;
pub use writing::encode;
