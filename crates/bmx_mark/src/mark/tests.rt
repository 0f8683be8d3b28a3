//! Marks over a small graph, step by step.
ghost use Rattle.std.specs.Prelude.{◌≡◌, ◌+◌, ◌≤◌, ◌<◌, ◌==◌, ◌&&◌, ◌||◌, [], ◌∷◌, length, Some, None, IfOk, if◌then◌else◌};

use crate::{Edges, Mark};
use bmx_types::{BunchNo, Name, NodeNo};
use std::alloc::Global;
use std::process::Abort;
use std::test::Fail;

/// A name of node 0.
fn name(count: u64) -> Result<Name, Fail> {
    let node = NodeNo::new(0).ok_or("no node")?;
    Ok(Name::new(node, count).ok_or("no name")?)
}

/// One root, whose fields 2 and 7 refer to `later` and whose fields 0 and 4 refer to `first`.
#[derive(Drop)]
struct Fork {
    root: Name,
    later: Name,
    first: Name,
}

impl Edges for Fork {
    ghost roots = { λ f bunch. f.root ∷ [] };

    ghost target_of = { λ f name i. if name == f.root && (i == 2 || i == 7) then Some f.later else (if name == f.root && (i == 0 || i == 4) then Some f.first else None) };

    fn root(&self, _bunch: BunchNo, i: u64) -> Option<Name> {
        if i == 0 { Some(self.root) } else { None }
    }

    fn target(&self, name: Name, i: u8) -> Option<Name> {
        if name == self.root && (i == 2 || i == 7) {
            Some(self.later)
        } else if name == self.root && (i == 0 || i == 4) {
            Some(self.first)
        } else {
            None
        }
    }
}

/// An object with two references, twice each.
fn forked(root: u64, later: u64, first: u64) -> Result<Fork, Fail> {
    Ok(Fork {
        root: name(root)?,
        later: name(later)?,
        first: name(first)?,
    })
}

/// A mark that has begun, with room for many names.
fn begun(alloc: Global, edges: &Fork) -> Result<Mark, Fail>
    ensures { IfOk result (λ mark. 50 ≤ mark.spare) }
{
    let mut mark = Mark::new(alloc)?;
    mark.reserve(100)?;
    mark.begin(edges, BunchNo::new(0).ok_or("no bunch")?)?;
    Ok(mark)
}

/// One step, with room for both targets of the root.
fn step(mark: &mut Mark, edges: &Fork)
    requires grey { 0 < length mark.old.grey }
    requires room { 2 ≤ mark.old.spare }
    ensures { mark.old.spare ≤ mark.new.spare + 2 }
{
    mark.step(edges);
}

/// Two steps of a mark that isn't done before them.
fn two_steps(rt: &impl Abort, mark: &mut Mark, edges: &Fork)
    requires { 10 ≤ mark.old.spare }
{
    assert!(rt; !mark.is_done());
    step(mark, edges);
    assert!(rt; !mark.is_done());
    step(mark, edges);
}

/// Name 1 is the root and refers to 2: after two steps both are kept, and 3 isn't.
#[test]
fn what_a_root_refers_to_is_kept(rt: HostRuntime) -> Result<(), Fail> {
    let edges = forked(1, 2, 2)?;
    let mut mark = begun(rt.alloc(), &edges)?;
    two_steps(&rt, &mut mark, &edges);
    assert!(rt; mark.is_done());
    assert!(rt; mark.is_kept(edges.root));
    assert!(rt; mark.is_kept(edges.later));
    assert!(rt; !mark.is_kept(name(3)?));
    Ok(())
}

/// Then list 0 is empty, and list 1 has the keys of both.
#[test]
fn scanned_names_are_on_the_second_list(rt: HostRuntime) -> Result<(), Fail> {
    let edges = forked(1, 2, 2)?;
    let mut mark = begun(rt.alloc(), &edges)?;
    two_steps(&rt, &mut mark, &edges);
    let one = mark.key(edges.root).ok_or("no key")?;
    let two = mark.key(edges.later).ok_or("no key")?;
    assert_eq!(rt; mark.lists().first(0), None);
    assert_eq!(rt; mark.lists().first(1), Some(one));
    assert_eq!(rt; mark.lists().next(one), Some(two));
    assert_eq!(rt; mark.lists().next(two), None);
    assert_eq!(rt; mark.key(name(3)?), None);
    Ok(())
}

/// Targets become grey by rising name, each once, and a name that is greyed later comes behind them.
#[test]
fn names_become_grey_in_order(rt: HostRuntime) -> Result<(), Fail> {
    let edges = forked(4, 9, 6)?;
    let last = name(2)?;
    let mut mark = begun(rt.alloc(), &edges)?;
    assert!(rt; !mark.is_done());
    step(&mut mark, &edges);
    mark.grey(last);
    mark.grey(edges.first);
    let six = mark.key(edges.first).ok_or("no key")?;
    let nine = mark.key(edges.later).ok_or("no key")?;
    assert_eq!(rt; mark.lists().first(0), Some(six));
    assert_eq!(rt; mark.lists().next(six), Some(nine));
    assert_eq!(rt; mark.lists().next(nine), mark.key(last));
    Ok(())
}

/// A mark that begins again has forgotten what was marked.
#[test]
fn a_new_mark_has_the_roots_alone(rt: HostRuntime) -> Result<(), Fail> {
    let edges = forked(4, 9, 6)?;
    let mut mark = begun(rt.alloc(), &edges)?;
    two_steps(&rt, &mut mark, &edges);
    mark.begin(&edges, BunchNo::new(0).ok_or("no bunch")?)?;
    assert_eq!(rt; mark.lists().first(0), mark.key(edges.root));
    assert!(rt; !mark.is_kept(edges.later));
    Ok(())
}
