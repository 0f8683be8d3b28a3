//! References within a bunch and out of it.
use crate::{count_pairs, must_grey, on_store};
use bmx_msg::{Field, Fields};
use bmx_types::{Address, BunchNo, Info, Items, Name, NodeNo, Place};
use std::test::Fail;

fn bunch(b: u8) -> Result<BunchNo, Fail> {
    Ok(BunchNo::new(b).ok_or("no bunch")?)
}

/// A reference to an object of the bunch.
fn reference(b: u8) -> Result<Field, Fail> {
    let node = NodeNo::new(0).ok_or("no node")?;
    Ok(Field::Ref(Info {
        name: Name::new(node, 2).ok_or("no name")?,
        bunch: bunch(b)?,
        size: 1,
        place: Place {
            address: Address::new(node, 1, 36).ok_or("no address")?,
            moves: 0,
        },
    }))
}

/// Of five fields two lead out of bunch 1, and the two reach one object.
#[test]
fn what_leads_out_needs_a_pair(rt: HostRuntime) -> Result<(), Fail> {
    let mut fields: Fields = Items::new(rt.alloc());
    fields.push(reference(0)?)?;
    fields.push(Field::Int(7))?;
    fields.push(reference(1)?)?;
    fields.push(Field::Null)?;
    fields.push(reference(0)?)?;
    assert_eq!(rt; count_pairs(bunch(1)?, &fields), 2);
    assert_eq!(rt; count_pairs(bunch(0)?, &fields), 1);
    assert!(rt; on_store(bunch(1)?, bunch(0)?));
    assert!(rt; !on_store(bunch(1)?, bunch(1)?));
    Ok(())
}

#[test]
fn only_the_bunch_being_collected_is_greyed(rt: HostRuntime) -> Result<(), Fail> {
    assert!(rt; must_grey(Some(bunch(3)?), bunch(3)?));
    assert!(rt; !must_grey(Some(bunch(3)?), bunch(2)?));
    assert!(rt; !must_grey(None, bunch(3)?));
    Ok(())
}
