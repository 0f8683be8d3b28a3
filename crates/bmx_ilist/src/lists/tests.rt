//! Keys that leave a list and move to another.
ghost use Rattle.std.specs.Prelude.{◌≡◌, ℕ, ◌<◌, length, IsTrue, IfOk, OnOk};
ghost use Rattle.bmx_ilist.specs.Sequences.{is_in_list};

use super::*;
use std::test::Fail;

/// Puts a new key at the end of a list.
fn add_last(lists: &mut Lists, list: u32) -> Result<Key, NoMemory>
    requires { list < length lists.old.lists }
    ensures len { length lists.new.lists ≡ length lists.old.lists }
    ensures linked { IfOk result (λ key. IsTrue (is_in_list lists.new.lists key)) }
    ensures rest { (q : ℕ) → IsTrue (is_in_list lists.old.lists q) → IsTrue (is_in_list lists.new.lists q) }
{
    let key = lists.add()?;
    lists.push_back(list, key);
    Ok(key)
}

/// Three keys pushed and the middle one taken out: the first and the last are left, in order.
#[test]
#[tactic(auto, using(crate::proofs::Calls::calls))]
fn a_key_leaves_the_middle(rt: HostRuntime) -> Result<(), Fail> {
    let mut lists = Lists::new(rt.alloc(), 1)?;
    let a = add_last(&mut lists, 0)?;
    let b = add_last(&mut lists, 0)?;
    let c = add_last(&mut lists, 0)?;
    lists.unlink(b);
    assert_eq!(rt; lists.first(0), Some(a));
    assert_eq!(rt; lists.next(a), Some(c));
    assert_eq!(rt; lists.next(c), None);
    assert_eq!(rt; lists.pop_front(0), Some(a));
    Ok(())
}

/// A key in reserved room goes from one list to the other, and ends.
#[test]
#[tactic(auto, using(crate::proofs::Calls::calls))]
fn a_reserved_key_moves(rt: HostRuntime) -> Result<(), Fail> {
    let mut lists = Lists::new(rt.alloc(), 2)?;
    lists.reserve(1)?;
    let a = lists.add_reserved();
    lists.push_back(0, a);
    lists.move_to(1, a);
    assert_eq!(rt; lists.first(1), Some(a));
    lists.unlink(a);
    lists.remove(a);
    assert_eq!(rt; lists.pop_front(1), None);
    Ok(())
}
