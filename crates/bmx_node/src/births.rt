//! The objects that node 0 opens with.
ghost use Rattle.std.specs.Prelude.{◌≡◌, ℕ, ◌+◌, ◌<◌, ◌≤◌, length, Contains, All, OnOk, IfOk};
ghost use Rattle.bmx_types.specs.Openings.{AreBirths, bunches_of};
ghost use Rattle.bmx_types.specs.Updates.{put};
ghost use Rattle.bmx_memory.specs.Shown.{shown, HasEntry};
ghost use Rattle.bmx_node.specs.Inside.Births.{blank_until, setting_of, owner_shown, blank_object, born_object};

use bmx_memory::Memory;
use bmx_types::{Birth, NoMemory, NodeNo, Opening};
use std::alloc::Global;

/// How many bunches births are of. Linear.
pub(crate) fn bunches_of(births: &[Birth]) -> u8
    requires { bunches_of births.now ≤ 16 }
    ensures { result ≡ bunches_of births.now }
{
    let mut bunches = 0;
    for birth in births {
        bunches = bunches.max(birth.bunch.get() + 1);
    }
    bunches
}

/// Makes the objects of a bunch after those of the bunches before it, with null fields. Linear.
fn place_bunch(memory: &mut Memory, births: &[Birth], bunch: u8) -> Result<(), NoMemory>
    requires births { AreBirths births.now }
    requires bunch { bunch < bunches_of births.now }
    requires shown { shown memory.old ≡ blank_until (shown memory.old).limit births.now bunch }
    ensures { OnOk result (shown memory.new ≡ blank_until (shown memory.old).limit births.now (bunch + 1)) }
{
    for birth in births {
        if birth.bunch.get() == bunch {
            memory.make_birth(birth.name, birth.bunch, birth.fields.len() as u8)?;
        }
    }
    Ok(())
}

/// Writes the fields of an object that was made with null fields.
fn fill(memory: &mut Memory, birth: &Birth)
    requires few { length birth.now.fields ≤ 32 }
    requires blank { (shown memory.old).object birth.now.name ≡ Some (blank_object birth.now) }
    requires known { All (λ v. HasEntry (shown memory.old) v) birth.now.fields }
    ensures { shown memory.new ≡ record (shown memory.old) { object = put (shown memory.old).object birth.now.name (Some (born_object birth.now)) } }
{
    for i in 0..birth.fields.len() as u8 {
        memory.write_field(birth.name, i, *birth.fields.at(i as usize));
    }
}

/// Node 0's objects as the store opens: the births, bunch by bunch, with their fields. Linear in bunches times
/// births.
pub(crate) fn owner_memory(alloc: Global, opening: &Opening) -> Result<Memory, NoMemory>
    ensures { IfOk result (λ m. shown m ≡ owner_shown (setting_of opening.now)) }
{
    let owner = NodeNo::new(0).unwrap();
    let births = opening.births.as_slice();
    let mut memory = Memory::new(alloc, owner, opening.limit);
    for bunch in 0..bunches_of(births) {
        place_bunch(&mut memory, births, bunch)?;
    }
    for birth in births {
        fill(&mut memory, birth);
    }
    Ok(memory)
}
