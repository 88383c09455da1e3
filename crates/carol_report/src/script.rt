ghost use Rattle.std.specs.Prelude.{◌+◌, ◌≤◌, length, IfOk};
ghost use Rattle.carol_report.specs.Plays.{Plays};

use crate::statement::run_statement;
use carol_history::{BadStatement, Statement, StatementList};
use carol_house::{House, MOST_EVENTS};
use std::alloc::AllocError;

/// Runs the script's statements in order, up to the first that gives no event, and answers that
/// one, if there is one. The house's events and the statements are at most 131,072 together. Memory
/// for events is taken once, at the start.
pub fn run_script(
    house: &mut House,
    lines: &StatementList,
) -> Result<Option<BadStatement>, AllocError>
    requires { length house.old.history + length lines.now ≤ MOST_EVENTS }
    ensures { IfOk result (λ bad. Plays house.old lines.now house.new bad) }
{
    house.reserve(lines.len() as u32)?;
    first_bad(house, lines.as_slice())
}

// Runs the statements, up to the first that gives no event, and answers that one, if there is one.
fn first_bad(house: &mut House, lines: &[Statement]) -> Result<Option<BadStatement>, AllocError>
    requires { length house.old.history + length lines.now ≤ MOST_EVENTS }
    ensures { IfOk result (λ bad. Plays house.old lines.now house.new bad) }
{
    for (index, line) in lines.iter().enumerate() {
        if let Some(cause) = run_statement(house, *line)? {
            let number = index as u64 + 1;
            return Ok(Some(BadStatement { number, cause }));
        }
    }
    Ok(None)
}
