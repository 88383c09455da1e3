ghost use Rattle.std.specs.Prelude.{◌≡◌, ℕ, ◌++◌, ◌<◌, OnOk};
ghost use Rattle.std.specs.String.{string_bytes};
ghost use Rattle.carol_house.specs.House.{HasPlanned};
ghost use Rattle.carol_report.specs.Report.{commands_text, outcome_text, result_line, results_text};

use carol_event::push_cause;
use carol_house::House;
use carol_reading::Outcome;
use std::alloc::AllocError;
use std::fmt::Write;

/// Appends the lines of all commands, by session and then by command.
pub fn push_results(out: &mut String, house: &House) -> Result<(), AllocError>
    ensures { OnOk result (string_bytes out.new ≡ string_bytes out.old
        ++ results_text house.now.scene house.now.history) }
{
    for (session, plan) in house.scene().sessions.as_slice().iter().enumerate() {
        push_commands(out, house, session as u32, plan.commands.len() as u32)?;
    }
    Ok(())
}

// Appends the lines of a session's commands, of which there are `count`.
fn push_commands(
    out: &mut String,
    house: &House,
    session: u32,
    count: u32,
) -> Result<(), AllocError>
    requires { (command : ℕ) → command < count → HasPlanned house.now.scene session command }
    ensures { OnOk result (string_bytes out.new ≡ string_bytes out.old
        ++ commands_text house.now.scene house.now.history session count) }
{
    for command in 0..count {
        push_result(out, session, command, house.outcome(session, command))?;
    }
    Ok(())
}

// Appends the line of a command.
#[tactic(auto, unfolding(crate::specs::Report::result_line))]
fn push_result(
    out: &mut String,
    session: u32,
    command: u32,
    outcome: Outcome,
) -> Result<(), AllocError>
    ensures { OnOk result (string_bytes out.new ≡ string_bytes out.old
        ++ result_line session command outcome) }
{
    write!(out, "result {session} {command} ")?;
    push_outcome(out, outcome)?;
    writeln!(out)
}

// Appends how a command came out.
#[tactic(auto, unfolding(crate::specs::Report::outcome_text))]
fn push_outcome(out: &mut String, outcome: Outcome) -> Result<(), AllocError>
    ensures { OnOk result (string_bytes out.new ≡ string_bytes out.old ++ outcome_text outcome) }
{
    match outcome {
        Outcome::NotDone => write!(out, "open"),
        Outcome::Value(value) => write!(out, "value {value}"),
        Outcome::Refused(cause) => push_cause(out, cause),
    }
}
