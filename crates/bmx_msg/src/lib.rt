//! The letters that nodes send one another: requests, grants, invalidations and their
//! acknowledgements. A grant carries the object's fields, and tells where what they refer to lies.
#![tactic(auto)]

mod given;
mod letters;

pub use given::{Given, gives};
pub use letters::{Field, Fields, Letter, Msg};

#[cfg(test)]
mod tests {
    use crate::{Field, Fields, Letter, Msg, gives};
    use bmx_types::{Address, BunchNo, Info, Items, Name, NodeNo, Place};
    use std::test::Fail;

    // The object that node 0 made as its count-th, with two fields, in its first segment.
    fn object(count: u64) -> Option<Info> {
        let node = NodeNo::new(0)?;
        Some(Info {
            name: Name::new(node, count)?,
            bunch: BunchNo::new(0)?,
            size: 2,
            place: Place {
                address: Address::new(node, 1, 36)?,
                moves: 0,
            },
        })
    }

    #[test]
    fn grants_and_what_they_give(rt: HostRuntime) -> Result<(), Fail> {
        let info = object(2).ok_or("0.2")?;
        let target = object(3).ok_or("0.3")?;
        let (granted, referred) = (info.name, target.name);
        let mut fields: Fields = Items::new(rt.alloc());
        fields.push(Field::Int(7))?;
        fields.push(Field::Ref(target))?;
        let letter = Letter {
            seq: 1,
            stamp: 9,
            msg: Msg::ReadGrant { info, fields },
        };
        let Letter { seq, stamp, msg } = letter.copy(rt.alloc())?;
        assert_eq!(rt; (seq, stamp), (1, 9));
        let mut names = gives(&msg);
        assert_eq!(rt; names.next(), Some(granted));
        assert_eq!(rt; names.next(), Some(referred));
        assert_eq!(rt; names.next(), None);
        Ok(())
    }
}
