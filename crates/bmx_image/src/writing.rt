//! The bytes of an image.
ghost use Rattle.std.specs.Prelude.{◌≡◌, ◌++◌, ◌≤◌, length, OnOk, IfOk};
ghost use Rattle.byteorder.specs.Endian.{big_bytes};
ghost use Rattle.bmx_image.specs.Spelling.{field_bytes, object_bytes, image_bytes};

use crate::images::{Image, ImageField, ImageObject};
use bmx_types::{Bytes, Items, NoMemory};
use byteorder::{BigEndian, ByteOrder};
use std::alloc::Global;

/// The bytes of an image, its one spelling. Linear in their number.
pub fn encode(alloc: Global, image: &Image) -> Result<Bytes, NoMemory>
    ensures { IfOk result (λ bytes. bytes ≡ image_bytes image.now.objects) }
{
    let mut head = *b"BMXI\x00\x01\x00\x00\x00\x00";
    BigEndian::write_u32(&mut head[6..], image.objects.len() as u32);
    let mut out = Vec::new(alloc);
    out.extend_from_slice(&head)?;
    let objects = image.objects.as_slice();
    for object in objects {
        push_object(&mut out, object)?;
    }
    Ok(Items::from_vec(out))
}

fn push_object(out: &mut Vec<u8>, object: &ImageObject) -> Result<(), NoMemory>
    requires { length object.now.fields ≤ 32 }
    ensures { OnOk result (out.new.items ≡ out.old.items ++ object_bytes object.now) }
{
    out.push(object.fields.len() as u8)?;
    let fields = object.fields.as_slice();
    for field in fields {
        push_field(out, *field)?;
    }
    Ok(())
}

fn push_field(out: &mut Vec<u8>, field: ImageField) -> Result<(), NoMemory>
    ensures { OnOk result (out.new.items ≡ out.old.items ++ field_bytes field) }
{
    match field {
        ImageField::Null => out.push(0)?,
        ImageField::Int(number) => {
            let mut bytes = [1; 9];
            BigEndian::write_i64(&mut bytes[1..], number);
            out.extend_from_slice(&bytes)?;
        }
        ImageField::Ref(index) => {
            let mut bytes = [2; 5];
            BigEndian::write_u32(&mut bytes[1..], index);
            out.extend_from_slice(&bytes)?;
        }
    }
    Ok(())
}
