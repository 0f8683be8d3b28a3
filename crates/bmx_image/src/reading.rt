//! The image that bytes spell.
ghost use Rattle.std.specs.Prelude.{◌≡◌, ℕ, ◌+◌, ◌∷◌, [], ◌++◌, ◌<◌, ◌≤◌, length, MatchResult, Some, IsTrue};
ghost use Rattle.std.specs.Int.{w64, cast_unsigned};
ghost use Rattle.byteorder.specs.Endian.{big_bytes, big_number};
ghost use Rattle.bmx_image.specs.Spelling.{magic, field_bytes, head_bytes};
ghost use Rattle.bmx_image.specs.Images.{FieldFits, is_count as is_count_lem, is_size as is_size_lem, target as target_lem};
ghost use Rattle.bmx_image.specs.Faults.{short, field_fault, index_fault, size_fault, magic_fault, version_fault, count_fault, head_fault, IsAnswer};
ghost use Rattle.bmx_image.specs.Inside.Reading.{IsObject, IsImageOf};

use crate::faults::{Fault, ImageCause, ImageError, Stop};
use crate::images::{Image, ImageField, ImageObject};
use bmx_types::Items;
use byteorder::{BigEndian, ByteOrder};
use std::alloc::Global;

/// The image that bytes spell, or the first item, from the left, that doesn't fit. Linear in the
/// number of bytes.
pub fn decode(alloc: Global, bytes: &[u8]) -> Result<Image, ImageError>
    ensures { IsAnswer bytes.now result }
{
    match image(alloc, bytes) {
        Ok(image) => Ok(image),
        Err(Stop::NoMemory) => Err(ImageError::NoMemory),
        Err(Stop::Fault(fault)) => Err(ImageError::Bad(fault.told(bytes))),
    }
}

/// What is known of the objects before an object.
#[derive(Clone, Copy)]
struct Before {
    /// How many objects the image has.
    count: u32,
    /// How many of them stand before the object.
    index: u32,
    /// The greatest index that they refer to.
    top: u32,
}

/// An object that was read.
#[derive(Drop)]
struct Read<'a> {
    object: ImageObject,
    /// The greatest index that it or an object before it refers to.
    top: u32,
    /// The bytes behind it.
    rest: &'a [u8],
}

fn image(alloc: Global, bytes: &[u8]) -> Result<Image, Stop>
    ensures { IsImageOf bytes.now result }
{
    let (count, mut rest) = head(bytes)?;
    let mut objects = Items::new(alloc);
    let mut top = 0;
    for index in 0..count {
        let read = object(alloc, rest, Before { count, index, top })?;
        objects.push(read.object)?;
        top = read.top;
        rest = read.rest;
    }
    if !rest.is_empty() {
        return Err(Stop::Fault(Fault::at(ImageCause::Trailing, rest)));
    }
    Ok(Image { objects })
}

/// The number of objects, and the bytes behind it.
fn head(bytes: &[u8]) -> Result<(u32, &[u8]), Fault>
    ensures { MatchResult result (λ x. (bytes.now ≡ head_bytes x.0 ++ x.1.now) × IsTrue (is_count_lem x.0)) (λ f. head_fault bytes.now ≡ Some f) }
{
    let rest = byte(bytes, b'B')?;
    let rest = byte(rest, b'M')?;
    let rest = byte(rest, b'X')?;
    let rest = byte(rest, b'I')?;
    let rest = version(rest)?;
    count(rest)
}

/// The bytes behind a byte that must stand there.
fn byte(bytes: &[u8], wanted: u8) -> Result<&[u8], Fault>
    ensures { MatchResult result (λ rest. bytes.now ≡ wanted ∷ rest.now) (λ f. magic_fault (wanted ∷ []) bytes.now ≡ Some f) }
{
    match bytes {
        [] => Err(Fault::short()),
        [byte, rest @ ..] => {
            if *byte == wanted {
                Ok(rest)
            } else {
                Err(Fault::at(ImageCause::Magic, bytes))
            }
        }
    }
}

/// The bytes behind the version.
fn version(bytes: &[u8]) -> Result<&[u8], Fault>
    ensures { MatchResult result (λ rest. bytes.now ≡ big_bytes 2 1 ++ rest.now) (λ f. version_fault bytes.now ≡ Some f) }
{
    if bytes.len() < 2 {
        return Err(Fault::short());
    }
    if BigEndian::read_u16(bytes) != 1 {
        return Err(Fault::at(ImageCause::Magic, bytes));
    }
    Ok(&bytes[2..])
}

/// How many objects there are, and the bytes behind that number.
fn count(bytes: &[u8]) -> Result<(u32, &[u8]), Fault>
    ensures { MatchResult result (λ x. (bytes.now ≡ big_bytes 4 x.0 ++ x.1.now) × IsTrue (is_count_lem x.0)) (λ f. count_fault bytes.now ≡ Some f) }
{
    let (count, rest) = number(bytes)?;
    if count == 0 || count > 20_000 {
        return Err(Fault::at(ImageCause::Size, bytes));
    }
    Ok((count, rest))
}

/// A number of four bytes, and the bytes behind it.
fn number(bytes: &[u8]) -> Result<(u32, &[u8]), Fault>
    ensures { MatchResult result (λ x. bytes.now ≡ big_bytes 4 x.0 ++ x.1.now) (λ f. (length bytes.now < 4) × (f ≡ short)) }
{
    if bytes.len() < 4 {
        return Err(Fault::short());
    }
    Ok((BigEndian::read_u32(bytes), &bytes[4..]))
}

/// The object at the start of bytes.
fn object(alloc: Global, bytes: &[u8], before: Before) -> Result<Read<'_>, Stop>
    ensures { IsObject before bytes.now result }
{
    let (size, mut rest) = size(bytes, before.index, before.top)?;
    let mut fields = Vec::with_capacity(alloc, size as usize)?;
    let mut top = before.top;
    for _ in 0..size {
        let (field, after) = field(rest, before.count, top)?;
        fields.push(field)?;
        top = top.max(target(field));
        rest = after;
    }
    Ok(Read {
        object: ImageObject {
            fields: Items::from_vec(fields),
        },
        top,
        rest,
    })
}

/// How many fields the object at an index has, where the greatest index before it is `top`.
fn size(bytes: &[u8], index: u32, top: u32) -> Result<(u8, &[u8]), Fault>
    ensures { MatchResult result (λ x. (bytes.now ≡ x.0 ∷ x.1.now) × (index ≤ top) × IsTrue (is_size_lem index x.0)) (λ f. size_fault index top bytes.now ≡ Some f) }
{
    match bytes {
        [] => Err(Fault::short()),
        [size, rest @ ..] => {
            if index > top {
                return Err(Fault::at(ImageCause::Order, bytes));
            }
            if !is_size(index, *size) {
                return Err(Fault::at(ImageCause::Size, bytes));
            }
            Ok((*size, rest))
        }
    }
}

/// Whether the object at an index may have so many fields.
fn is_size(index: u32, size: u8) -> bool
    ensures { result ≡ is_size_lem index size }
{
    if index == 0 { size == 32 } else { size <= 32 }
}

/// The field at the start of bytes, where the greatest index before it is `top`.
fn field(bytes: &[u8], count: u32, top: u32) -> Result<(ImageField, &[u8]), Fault>
    ensures { MatchResult result (λ x. (bytes.now ≡ field_bytes x.0 ++ x.1.now) × FieldFits count top x.0) (λ f. field_fault count top bytes.now ≡ Some f) }
{
    match bytes {
        [] => Err(Fault::short()),
        [0, rest @ ..] => Ok((ImageField::Null, rest)),
        [1, rest @ ..] => {
            let (number, rest) = integer(rest)?;
            Ok((ImageField::Int(number), rest))
        }
        [2, rest @ ..] => {
            let (index, rest) = index(rest, count, top)?;
            Ok((ImageField::Ref(index), rest))
        }
        [_, ..] => Err(Fault::at(ImageCause::Tag, bytes)),
    }
}

/// A signed number of eight bytes, and the bytes behind it.
fn integer(bytes: &[u8]) -> Result<(i64, &[u8]), Fault>
    ensures { MatchResult result (λ x. bytes.now ≡ big_bytes 8 (cast_unsigned w64 x.0) ++ x.1.now) (λ f. (length bytes.now < 8) × (f ≡ short)) }
{
    if bytes.len() < 8 {
        return Err(Fault::short());
    }
    Ok((BigEndian::read_i64(bytes), &bytes[8..]))
}

/// The index of an object, and the bytes behind it.
fn index(bytes: &[u8], count: u32, top: u32) -> Result<(u32, &[u8]), Fault>
    ensures { MatchResult result (λ x. (bytes.now ≡ big_bytes 4 x.0 ++ x.1.now) × (x.0 < count) × (x.0 ≤ top + 1)) (λ f. index_fault count top bytes.now ≡ Some f) }
{
    let (index, rest) = number(bytes)?;
    if index >= count {
        return Err(Fault::at(ImageCause::Target, bytes));
    }
    if index.saturating_sub(top) > 1 {
        return Err(Fault::at(ImageCause::Order, bytes));
    }
    Ok((index, rest))
}

/// The index that a field refers to, 0 where it refers to none.
fn target(field: ImageField) -> u32
    ensures { result ≡ target_lem field }
{
    match field {
        ImageField::Ref(index) => index,
        ImageField::Null | ImageField::Int(_) => 0,
    }
}
