//! What a table ends at the node that takes it. It touches records and pairs alone.
ghost use Rattle.std.specs.Prelude.{◌≡◌, ℕ, ◌≤◌};
ghost use Rattle.std.specs.List.Sorted.{IsStrictlyIncreasing};
ghost use Rattle.bmx_owner.specs.Records.{IsInOrder, find_record};
ghost use Rattle.bmx_clean.specs.Cleaning.{applied, records_left, record_left, scions_left};

use bmx_inter::Inter;
use bmx_owner::Records;
use bmx_table::Table;

/// What became of a table.
#[derive(Clone, Copy, Debug, PartialEq, Eq)]
pub enum Applied {
    /// It speaks of letters that are still on their way, so nothing changed.
    Early,
    /// So many records and scions went.
    Removed(u64),
}

/// Ends records and scions by a table for this node, which has taken `taken` letters from the node that
/// made the table. A table made when more letters were issued is Early, and changes nothing. Else each
/// record goes that is of the bunch and of the table's maker, that the table doesn't list, and on which
/// no letter bears that was issued or taken after the table was made; and where the node made the table
/// itself each scion whose source is in the bunch, that the table doesn't list, and whose reference was
/// last stored when the table was made or before. Takes what `Records::clean` and `Inter::clean` take,
/// and no memory.
pub fn apply(records: &mut Records, inter: &mut Inter, taken: u64, table: &Table) -> Applied
    requires { IsStrictlyIncreasing table.now.names }
    ensures answer { result ≡ applied taken table.now records.old.list inter.old.scions }
    ensures records { records.new.list ≡ records_left taken table.now records.old.list }
    ensures entering { IsInOrder records.old.list → (name node : ℕ) → find_record records.new.list name node ≡ record_left taken table.now (find_record records.old.list name node) }
    ensures scions { inter.new.scions ≡ scions_left taken table.now inter.old.scions }
    ensures stubs { inter.new.stubs ≡ inter.old.stubs }
    ensures records_spare { records.old.spare ≤ records.new.spare }
    ensures inter_spare { inter.old.spare ≤ inter.new.spare }
{
    if table.sent > taken {
        return Applied::Early;
    }
    let ended = records.clean(table.bunch, table.from, table.sent, table.got, &table.names);
    let own = if table.from == table.to {
        inter.clean(table.bunch, table.clock, &table.stubs)
    } else {
        0
    };
    Applied::Removed(ended + own)
}

#[cfg(test)]
mod tests;
