ghost use Rattle.std.specs.Prelude.{◌≡◌, ◌++◌, IfOk, OnOk};
ghost use Rattle.std.specs.String.{string_bytes};
ghost use Rattle.carol_house.specs.House.{rules_of};
ghost use Rattle.carol_report.specs.Summary.{global_line, summary_text};

use crate::numbers::{commands_in, entries_in, refused_in};
use carol_event::push_values;
use carol_house::House;
use carol_store::Store;
use std::alloc::{AllocError, Global};
use std::fmt::Write;

/// What the house came to: the number `n`, how many commands, events and entries it has, how many
/// commands were refused, and the values of the global store.
pub fn summary(alloc: Global, n: u32, house: &House) -> Result<Vec<u8>, AllocError>
    ensures { IfOk result (λ text. text.items
        ≡ summary_text n (rules_of house.now) house.now.scene house.now.history) }
{
    let mut out = String::new(alloc);
    let commands = commands_in(house.scene());
    let events = house.history().len();
    let entries = entries_in(house);
    let refused = refused_in(house);
    writeln!(out, "gen {n}")?;
    writeln!(out, "commands {commands}")?;
    writeln!(out, "events {events}")?;
    writeln!(out, "entries {entries}")?;
    writeln!(out, "refused {refused}")?;
    push_global(&mut out, &house.global())?;
    writeln!(out, "end")?;
    Ok(out.into_bytes())
}

// Appends the line of the global store.
fn push_global(out: &mut String, store: &Store) -> Result<(), AllocError>
    ensures { OnOk result (string_bytes out.new ≡ string_bytes out.old ++ global_line store.now) }
{
    write!(out, "global")?;
    push_values(out, store)?;
    writeln!(out)
}
