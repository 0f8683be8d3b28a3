//! Dropping the segments that nothing needs. It touches segments alone.
ghost use Rattle.std.specs.Prelude.{◌≡◌, ◌<◌, ◌≤◌, ◌↔◌, length, IsTrue};
ghost use Rattle.bmx_space.specs.Sweeps.{IsUnneeded};
ghost use Rattle.bmx_space.specs.Inside.Sweeping.{SweepsOn};

use bmx_segment::Segments;
use bmx_types::NodeNo;

/// Drops the i-th mapped segment where it is unneeded, and tells how many went.
pub fn sweep_at(segments: &mut Segments, i: u32) -> u32
    requires { i < length segments.old.blocks }
    ensures swept { SweepsOn segments.old segments.new i result }
    ensures few { result ≤ 1 }
{
    let (home, number) = segments.mapped_at(i);
    if is_unneeded(segments, home, number) {
        segments.drop_segment(home, number);
        return 1;
    }
    0
}

/// Whether a segment is mapped and not open, and has no live header.
fn is_unneeded(segments: &Segments, home: NodeNo, number: u32) -> bool
    ensures { IsTrue result ↔ IsUnneeded segments.now home number }
{
    segments.is_mapped(home, number)
        && segments.live(home, number) == 0
        && !segments.is_open(home, number)
}
