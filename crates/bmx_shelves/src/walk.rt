//! Taking items off a shelf in one walk.
ghost use Rattle.std.specs.Prelude.{◌≡◌, ◌≢◌, ℕ, ◌+◌, ◌<◌, Bool, not, [], filter, count_by, length, IsFalse, IsTrue};
ghost use Rattle.bmx_shelves.specs.Shelves.{on_shelf};

use crate::shelves::Shelves;

/// What says of the items of a shelf which of them go.
pub trait Judge<T> {
    // What it needs to say so.
    ghost is_ready: { Self → Type 0 };

    // The items that go.
    ghost is_ended: { Self → T → Bool };

    /// Whether the item goes.
    fn ends(&self, item: T) -> bool
        requires { is_ready self.now }
        ensures { result ≡ is_ended self.now item };
}

/// Takes the items off a shelf that go, in one walk over that shelf alone; the others keep their order. The
/// walk needs another shelf that is empty, and leaves it so. Answers whether an item went.
pub fn end_items<T: Copy, J: Judge<T>>(
    shelves: &mut Shelves<T>,
    shelf: u32,
    aside: u32,
    judge: &J,
) -> bool
    requires shelf { shelf < length shelves.old.shelves }
    requires aside { aside < length shelves.old.shelves }
    requires apart { shelf ≢ aside }
    requires empty { on_shelf shelves.old.shelves aside ≡ [] }
    requires ready { J.is_ready judge.now }
    ensures count { length shelves.new.shelves ≡ length shelves.old.shelves }
    ensures shelf { on_shelf shelves.new.shelves shelf ≡ filter (λ x. not (J.is_ended judge.now x)) (on_shelf shelves.old.shelves shelf) }
    ensures others { (m : ℕ) → m ≢ shelf → on_shelf shelves.new.shelves m ≡ on_shelf shelves.old.shelves m }
    ensures spare { shelves.new.spare ≡ shelves.old.spare + count_by (J.is_ended judge.now) (on_shelf shelves.old.shelves shelf) }
    ensures none { IsFalse result → count_by (J.is_ended judge.now) (on_shelf shelves.old.shelves shelf) ≡ 0 }
    ensures some { IsTrue result → 0 < count_by (J.is_ended judge.now) (on_shelf shelves.old.shelves shelf) }
{
    let mut any = false;
    'walk: while let Some(item) = shelves.front(shelf) {
        if judge.ends(item) {
            shelves.drop_front(shelf);
            any = true;
        } else {
            shelves.move_front(shelf, aside);
        }
    }
    'back: while shelves.front(aside).is_some() {
        shelves.move_front(aside, shelf);
    }
    any
}
