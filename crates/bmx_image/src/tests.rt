//! Images there and back, and bytes with one of them changed.
ghost use Rattle.std.specs.Prelude.{◌≡◌, length};

use crate::{
    BadImage, Fields, GatherError, ImageCause, ImageError, ImageField, decode, encode, gather,
};
use bmx_types::{BunchNo, Name, NoMemory, NodeNo, Val};
use std::alloc::Global;
use std::test::Fail;

/// An anchor with a list of three, which hold 1, 2 and 3.
const LIST: [u8; 88] =
    *b"BMXI\x00\x01\x00\x00\x00\x04\x20\x02\x00\x00\x00\x01\x00\x00\x00\x00\x00\x00\x00\x00\x00\x00\x00\x00\x00\x00\x00\x00\x00\x00\x00\x00\x00\x00\x00\x00\x00\x00\x00\x00\x00\x00\x00\x02\x01\x00\x00\x00\x00\x00\x00\x00\x01\x02\x00\x00\x00\x02\x02\x01\x00\x00\x00\x00\x00\x00\x00\x02\x02\x00\x00\x00\x03\x02\x01\x00\x00\x00\x00\x00\x00\x00\x03\x00";

/// The values that each byte is set to, one for each column of the table.
const VALUES: [u8; 7] = [0, 1, 2, 3, 32, 33, 255];

/// What the list comes to with one byte set to a value, a row for each byte: an image, or the cause
/// and the place. M is Magic, S Short, Z Size, T Tag, G Target, O Order, R Trailing. A reader written
/// from the format's description alone worked them out.
const CHANGED: &str = "\
M0 M0 M0 M0 M0 M0 M0
M1 M1 M1 M1 M1 M1 M1
M2 M2 M2 M2 M2 M2 M2
M3 M3 M3 M3 M3 M3 M3
= M4 M4 M4 M4 M4 M4
M4 = M4 M4 M4 M4 M4
= Z6 Z6 Z6 Z6 Z6 Z6
= Z6 Z6 Z6 Z6 Z6 Z6
= S88 S88 S88 S88 S88 Z6
Z6 G12 G58 G73 S88 S88 S88
Z10 Z10 Z10 Z10 = Z10 Z10
G48 G48 = T11 T11 T11 T11
= G12 G12 G12 G12 G12 G12
= G12 G12 G12 G12 G12 G12
= G12 G12 G12 G12 G12 G12
O47 = O12 O12 G12 G12 G12
= G48 G48 T16 T16 T16 T16
= G48 G48 T17 T17 T17 T17
= G48 G48 T18 T18 T18 T18
= G48 G48 T19 T19 T19 T19
= G48 G48 T20 T20 T20 T20
= G48 G48 T21 T21 T21 T21
= G48 G48 T22 T22 T22 T22
= G48 G48 T23 T23 T23 T23
= G48 G48 T24 T24 T24 T24
= G48 G48 T25 T25 T25 T25
= G48 G48 T26 T26 T26 T26
= G48 G48 T27 T27 T27 T27
= G48 G48 T28 T28 T28 T28
= G48 G48 T29 T29 T29 T29
= G48 G48 T30 T30 T30 T30
= G48 G48 T31 T31 T31 T31
= G48 G48 T32 T32 T32 T32
= G48 G48 T33 T33 T33 T33
= G48 G48 T34 T34 T34 T34
= G48 G48 T35 T35 T35 T35
= G48 G48 T36 T36 T36 T36
= G48 G48 T37 T37 T37 T37
= G48 G48 T38 T38 T38 T38
= G63 G48 T39 T39 T39 T39
= O56 G48 T40 T40 T40 T40
= O56 G48 T41 T41 T41 T41
= O56 G48 T42 T42 T42 T42
= O56 G63 T43 T43 T43 T43
= O56 G45 T44 T44 T44 T44
= O56 G46 T45 T45 T45 T45
= O56 G47 T46 T46 T46 T46
O48 O57 = G63 G63 Z47 Z47
O50 = O54 T48 T48 T48 T48
= = = = = = =
= = = = = = =
= = = = = = =
= = = = = = =
= = = = = = =
= = = = = = =
= = = = = = =
= = = = = = =
O58 O66 = T57 T57 T57 T57
= G58 G58 G58 G58 G58 G58
= G58 G58 G58 G58 G58 G58
= G58 G58 G58 G58 G58 G58
O62 O62 = O58 G58 G58 G58
O63 O72 = G78 G78 Z62 Z62
O65 = O69 T63 T63 T63 T63
= = = = = = =
= = = = = = =
= = = = = = =
= = = = = = =
= = = = = = =
= = = = = = =
= = = = = = =
= = = = = = =
O73 O81 = T72 T72 T72 T72
= G73 G73 G73 G73 G73 G73
= G73 G73 G73 G73 G73 G73
= G73 G73 G73 G73 G73 G73
O77 O77 O77 = G73 G73 G73
R78 R87 = S88 S88 Z77 Z77
R80 = R84 T78 T78 T78 T78
= = = = = = =
= = = = = = =
= = = = = = =
= = = = = = =
= = = = = = =
= = = = = = =
= = = = = = =
= = = = = = =
= S88 S88 T87 T87 T87 T87
";

/// What bytes come to, in a few letters.
fn told(alloc: Global, bytes: &[u8]) -> Result<String, NoMemory> {
    let bad = match decode(alloc, bytes) {
        Ok(_) => return Ok(String::from_str(alloc, "=")?),
        Err(ImageError::NoMemory) => return Err(NoMemory),
        Err(ImageError::Bad(bad)) => bad,
    };
    let letter = match bad.cause {
        ImageCause::Magic => 'M',
        ImageCause::Short => 'S',
        ImageCause::Size => 'Z',
        ImageCause::Tag => 'T',
        ImageCause::Target => 'G',
        ImageCause::Order => 'O',
        ImageCause::Trailing => 'R',
    };
    let place = bad.place;
    Ok(format!(in alloc; "{letter}{place}")?)
}

#[test]
fn a_list_and_back(rt: HostRuntime) -> Result<(), Fail> {
    let image = decode(rt.alloc(), &LIST)
        .ok()
        .ok_or("the list is an image")?;
    assert_eq!(rt; image.objects.len(), 4);
    let bytes = encode(rt.alloc(), &image)?;
    assert_eq!(rt; bytes.as_slice(), LIST.as_slice());
    Ok(())
}

#[test]
fn a_prefix_is_short(rt: HostRuntime) {
    for (place, _) in LIST.iter().enumerate() {
        let short = BadImage {
            place: place as u64,
            cause: ImageCause::Short,
        };
        assert!(rt;
            matches!(decode(rt.alloc(), &LIST[..place]), Err(ImageError::Bad(bad)) if bad == short)
        );
    }
}

#[test]
fn each_byte_changed(rt: HostRuntime) -> Result<(), Fail> {
    let mut rows = CHANGED.lines();
    for (place, _) in LIST.iter().enumerate() {
        let row = rows.next().ok_or("a row for each byte")?;
        let mut words = row.split(' ');
        for value in VALUES.iter() {
            let word = words.next().ok_or("a word for each value")?;
            let mut bytes = LIST;
            bytes[place] = *value;
            assert_eq!(rt; told(rt.alloc(), &bytes)?.as_str(), word);
        }
    }
    Ok(())
}

#[test]
fn counts_and_what_follows(rt: HostRuntime) -> Result<(), Fail> {
    let alloc = rt.alloc();
    // 20,000 objects, and one more
    assert_eq!(rt;
        told(alloc, b"BMXI\x00\x01\x00\x00\x4e\x20")?.as_str(),
        "S10"
    );
    assert_eq!(rt;
        told(alloc, b"BMXI\x00\x01\x00\x00\x4e\x21")?.as_str(),
        "Z6"
    );
    let mut longer = Vec::from_slice(alloc, &LIST)?;
    longer.push(0)?;
    assert_eq!(rt; told(alloc, &longer)?.as_str(), "R88");
    Ok(())
}

/// A graph of two objects: an anchor of bunch 0, and another object.
#[derive(Clone, Copy)]
struct Two {
    anchor: Name,
    first: [Val; 32],
    other: [Val; 32],
    /// The bunch of the other object.
    there: BunchNo,
    ghost sizes: { (length first ≡ 32) × (length other ≡ 32) },
}

/// The anchor refers to the other object by field 3, and to itself by field 4.
fn graph_of(anchor: Name, other: Name, there: BunchNo) -> Two {
    let mut first = [Val::Null; 32];
    first[3] = Val::Ref(other);
    first[4] = Val::Ref(anchor);
    Two {
        anchor,
        first,
        other: [Val::Int(5); 32],
        there,
    }
}

impl Fields for Two {
    ghost use Rattle.std.specs.Prelude.{Some, ◌==◌, if◌then◌else◌};

    ghost bunches = { λ t x. Some (if x == t.anchor then 0 else t.there) };

    ghost fields = { λ t x. if x == t.anchor then t.first else t.other };

    fn bunch(&self, name: Name) -> Option<BunchNo> {
        if name.word() == self.anchor.word() {
            BunchNo::new(0)
        } else {
            Some(self.there)
        }
    }

    fn size(&self, name: Name) -> u8 {
        if name.word() == self.anchor.word() {
            self.first.len() as u8
        } else {
            self.other.len() as u8
        }
    }

    fn field(&self, name: Name, i: u8) -> Val {
        if name.word() == self.anchor.word() {
            self.first[i as usize]
        } else {
            self.other[i as usize]
        }
    }
}

#[test]
fn two_objects_and_a_crossing(rt: HostRuntime) -> Result<(), Fail> {
    let node = NodeNo::new(0).ok_or("node 0")?;
    let anchor = Name::new(node, 1).ok_or("the anchor")?;
    let other = Name::new(node, 7).ok_or("the other object")?;
    let home = BunchNo::new(0).ok_or("bunch 0")?;
    let image = gather(rt.alloc(), &graph_of(anchor, other, home), anchor)
        .ok()
        .ok_or("an image")?;
    assert_eq!(rt; image.objects.len(), 2);
    let fields = &image.objects.as_slice()[0].fields;
    assert_eq!(rt; fields.as_slice()[3], ImageField::Ref(1));
    assert_eq!(rt; fields.as_slice()[4], ImageField::Ref(0));
    let elsewhere = BunchNo::new(1).ok_or("bunch 1")?;
    let crossing = graph_of(anchor, other, elsewhere);
    assert!(rt;
        matches!(
            gather(rt.alloc(), &crossing, anchor),
            Err(GatherError::Crosses)
        )
    );
    Ok(())
}
