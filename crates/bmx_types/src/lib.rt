//! The plain data of the store: names of objects, addresses of words, values, commands and what a
//! store opens with. Contracts see a name, an address, a node number and a bunch number as numbers,
//! and a list as a list.
#![tactic(auto)]

mod addresses;
mod commands;
mod lists;
mod names;
mod numbers;
mod openings;
mod texts;
mod values;

pub use addresses::{Address, Info, Place};
pub use commands::{Command, Operand, Refusal};
pub use lists::{Bytes, Items};
pub use names::{Name, Names, Pair, Pairs};
pub use numbers::{BunchNo, Mode, NoMemory, NodeNo, NodeNos};
pub use openings::{Birth, Births, Opening};
pub use texts::Text;
pub use values::{Val, Vals};

#[cfg(test)]
mod tests {
    use crate::{Address, BunchNo, Items, Name, NodeNo, Text};
    use std::test::Fail;

    #[test]
    fn numbers_and_their_words(rt: HostRuntime) -> Result<(), Fail> {
        assert!(rt; NodeNo::new(7).is_some());
        assert!(rt; NodeNo::new(8).is_none());
        assert!(rt; BunchNo::new(15).is_some());
        assert!(rt; BunchNo::new(16).is_none());
        let node = NodeNo::new(7).ok_or("node 7")?;

        let largest = Address::new(node, 65535, 1023).ok_or("the largest address")?;
        assert_eq!(rt; largest.word(), 0x0700_ffff_0000_03ff);
        assert_eq!(rt; Address::from_word(0x0700_ffff_0000_03ff), Some(largest));
        assert_eq!(rt;
            (largest.home().get(), largest.segment(), largest.index()),
            (7, 65535, 1023)
        );
        assert_eq!(rt; Address::new(node, 0, 0), None);
        assert_eq!(rt; Address::new(node, 65536, 0), None);
        assert_eq!(rt; Address::new(node, 1, 1024), None);
        assert_eq!(rt; Address::from_word(0), None);

        let name = Name::new(node, 2).ok_or("the name 7.2")?;
        assert_eq!(rt; name.word(), 0x0700_0000_0000_0002);
        assert_eq!(rt; Name::from_word(0x0700_0000_0000_0002), Some(name));
        assert_eq!(rt; (name.node().get(), name.count()), (7, 2));
        assert_eq!(rt; Name::new(node, 0), None);
        assert_eq!(rt; Name::new(node, 1 << 56), None);
        assert_eq!(rt; Name::from_word(0x0800_0000_0000_0002), None);
        Ok(())
    }

    #[test]
    fn lists_and_texts(rt: HostRuntime) -> Result<(), Fail> {
        let mut items = Items::new(rt.alloc());
        items.push(3u8)?;
        items.insert(0, 2)?;
        let copy = items.copy(rt.alloc())?;
        assert_eq!(rt; copy.as_slice(), [2, 3].as_slice());
        let mut text = Text::from_str(rt.alloc(), "ab")?;
        text.push_str("c")?;
        assert_eq!(rt; text.as_str(), "abc");
        assert_eq!(rt; text.copy(rt.alloc())?.as_bytes(), b"abc".as_slice());
        Ok(())
    }
}
