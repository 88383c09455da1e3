ghost use Rattle.std.specs.Prelude.{◌≡◌, ◌++◌, OnOk};
ghost use Rattle.std.specs.String.{string_bytes};
ghost use Rattle.carol_house.specs.House.{rules_of};
ghost use Rattle.carol_report.specs.Report.{global_line, store_line, stores_text};

use carol_event::push_values;
use carol_house::House;
use carol_store::Store;
use std::alloc::AllocError;
use std::fmt::Write;

/// Appends the lines of the replicas' stores.
pub fn push_stores(out: &mut String, house: &House) -> Result<(), AllocError>
    ensures { OnOk result (string_bytes out.new ≡ string_bytes out.old
        ++ stores_text (rules_of house.now) house.now.scene house.now.history) }
{
    for replica in 0..house.scene().replicas {
        push_store(out, replica, &house.local(replica))?;
    }
    Ok(())
}

// Appends the line of a replica's store.
fn push_store(out: &mut String, replica: u32, store: &Store) -> Result<(), AllocError>
    ensures { OnOk result (string_bytes out.new ≡ string_bytes out.old
        ++ store_line replica store.now) }
{
    write!(out, "store {replica}")?;
    push_values(out, store)?;
    writeln!(out)
}

/// Appends the line of the global store.
pub fn push_global(out: &mut String, store: &Store) -> Result<(), AllocError>
    ensures { OnOk result (string_bytes out.new ≡ string_bytes out.old ++ global_line store.now) }
{
    write!(out, "global")?;
    push_values(out, store)?;
    writeln!(out)
}
