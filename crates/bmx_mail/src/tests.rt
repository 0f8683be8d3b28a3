//! A grant that is recorded and counted, and an object that is taken over.
use crate::{Mail, Outbox};
use bmx_msg::{Field, Fields, Msg};
use bmx_protocol::Numbers;
use bmx_types::{Address, BunchNo, Info, Items, Name, NoMemory, NodeNo, Place};
use std::alloc::Global;
use std::test::Fail;

// The object that node 0 made as its count-th, in bunch 0.
fn object(count: u64) -> Option<Info> {
    let node = NodeNo::new(0)?;
    Some(Info {
        name: Name::new(node, count)?,
        bunch: BunchNo::new(0)?,
        size: 1,
        place: Place {
            address: Address::new(node, 1, 36)?,
            moves: 0,
        },
    })
}

// What comes of a read grant of one object that refers to another, as the only letter of a step.
fn granted(alloc: Global, mail: &mut Mail, to: NodeNo) -> Result<bool, NoMemory> {
    let mut outbox = mail.outbox(alloc, 9, 1)?;
    mail.reserve(2)?;
    let (Some(info), Some(target)) = (object(2), object(3)) else {
        return Ok(false);
    };
    let mut fields: Fields = Items::new(alloc);
    fields.push(Field::Ref(target))?;
    mail.post(&mut outbox, to, Msg::ReadGrant { info, fields });
    Ok(is_first_letter(outbox))
}

fn is_first_letter(outbox: Outbox) -> bool {
    let letters = outbox.into_letters();
    let mut first = false;
    for sending in letters.iter() {
        first = sending.letter.seq == 1 && sending.letter.stamp == 9;
    }
    first && letters.len() == 1
}

// How many counts are listed, 9 where there is no memory.
fn counts(numbers: Result<Numbers, NoMemory>) -> usize {
    match numbers {
        Ok(numbers) => numbers.len(),
        Err(NoMemory) => 9,
    }
}

// A count of letters taken that is far from its end.
fn took(mail: &mut Mail, from: NodeNo) -> bool {
    if mail.taken(from) > 7 {
        return false;
    }
    mail.count_taken(from);
    true
}

#[test]
fn a_grant_is_recorded_and_counted(rt: HostRuntime) -> Result<(), Fail> {
    let alloc = rt.alloc();
    let to = NodeNo::new(1).ok_or("node 1")?;
    let other = NodeNo::new(2).ok_or("node 2")?;
    let mut mail = Mail::new(alloc);
    let sent = granted(alloc, &mut mail, to);
    let taken = took(&mut mail, other);
    let issued = (mail.issued(to), mail.issued(other));
    let counted = (mail.taken(to), mail.taken(other));
    let records = match mail.records(alloc) {
        Ok(records) => records.len(),
        Err(NoMemory) => 9,
    };
    let listed = (
        counts(mail.all_issued(alloc, 3)),
        counts(mail.all_taken(alloc, 2)),
    );
    assert_eq!(rt; sent, Ok(true));
    assert!(rt; taken);
    assert_eq!(rt; issued, (1, 0));
    assert_eq!(rt; counted, (0, 1));
    assert_eq!(rt; records, 2);
    assert_eq!(rt; listed, (3, 2));
    Ok(())
}

#[test]
fn an_object_is_taken_over(rt: HostRuntime) -> Result<(), Fail> {
    let alloc = rt.alloc();
    let from = NodeNo::new(1).ok_or("node 1")?;
    let bunch = BunchNo::new(0).ok_or("bunch 0")?;
    let name = Name::new(from, 4).ok_or("1.4")?;
    let mut mail = Mail::new(alloc);
    let found = match mail.reserve(2) {
        Ok(()) => {
            mail.enter(name, bunch, from);
            mail.take_over(name, bunch, from, 3);
            mail.records(alloc)
        }
        Err(NoMemory) => Err(NoMemory),
    };
    let got = match found {
        Ok(records) => records.iter().next().map(|r| (r.sent, r.got)),
        Err(NoMemory) => None,
    };
    assert_eq!(rt; got, Some((0, 3)));
    Ok(())
}
