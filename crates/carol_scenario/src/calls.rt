ghost use Rattle.std.specs.Prelude.{◌≡◌, ◌+◌, ◌<◌, ◌≤◌, ◌++◌, [], IfOk, IfErr, Some, length};
ghost use Rattle.carol_program.specs.Limits.{most_commands};
ghost use Rattle.carol_program.specs.Rules.{rules_in};
ghost use Rattle.carol_program.specs.WellFormed.{IsWellFormed};
ghost use Rattle.carol_scenario.specs.Meaning.{number_called};
ghost use Rattle.carol_scenario.specs.Faults.{Refuses, op_called, name_faults, arity_faults, total_faults, command_faults};

use crate::arguments::check_call;
use crate::error::{SceneError, SceneLimit};
use crate::limits::{MOST_COMMANDS, number_within};
use carol_program::Program;
use carol_syntax::CommandDecl;

// The number of the first operation of this name.
fn number_called(program: &Program, word: &[u8]) -> Option<usize>
    ensures { result ≡ number_called program.now.names word.now }
{
    program
        .names
        .ops
        .as_slice()
        .iter()
        .position(|op| word == op.own.bytes())
}

// The number of the operation that a command calls, with an argument for each parameter.
fn op_of(program: &Program, command: &CommandDecl) -> Result<u32, SceneError>
    requires { IsWellFormed (rules_in program.now) program.now.names }
    ensures number { let names = program.now.names in IfOk result
        (λ n. (number_called names command.now.name.word ≡ Some n)
        × (n < length program.now.ops)) }
    ensures ok { let word = command.now.name.word
        in let op = op_called (rules_in program.now) program.now.names word
        in IfOk result
        (λ _. (name_faults op command.now ≡ []) × (arity_faults op command.now ≡ [])) }
    ensures wrong { let word = command.now.name.word
        in let op = op_called (rules_in program.now) program.now.names word
        in IfErr result (Refuses (name_faults op command.now ++ arity_faults op command.now)) }
{
    let Some(number) = number_called(program, command.name.word.bytes()) else {
        return Err(SceneError::Unknown(command.name.span));
    };
    let Some(op) = program.ops.get(number) else {
        return Err(SceneError::Unknown(command.name.span));
    };
    if command.args.len() != op.params.len() {
        return Err(SceneError::Arity(command.name.span));
    }
    Ok(number as u32)
}

// The commands up to the last that this one stands for are few enough, behind so many.
fn check_total(before: u32, command: &CommandDecl) -> Result<(), SceneError>
    requires { before ≤ most_commands }
    ensures ok { IfOk result (λ _. (total_faults before command.now ≡ [])
        × (before + command.now.times.value ≤ most_commands)) }
    ensures wrong { IfErr result (Refuses (total_faults before command.now)) }
{
    if command.times.value <= MOST_COMMANDS - u64::from(before) {
        Ok(())
    } else {
        Err(SceneError::OutOfRange(SceneLimit::Commands, command.name.span))
    }
}

/// The number of the operation that a command calls, where nothing is wrong with the command. It
/// is to have this place in the session, behind so many commands of earlier sessions.
pub(crate) fn check_command(
    program: &Program,
    session: u32,
    earlier: u32,
    place: u32,
    command: &CommandDecl,
) -> Result<u32, SceneError>
    requires well_formed { IsWellFormed (rules_in program.now) program.now.names }
    requires few { earlier + place ≤ most_commands }
    ensures op { let names = program.now.names
        in IfOk result (λ n. number_called names command.now.name.word ≡ Some n) }
    ensures few { IfOk result (λ _. earlier + place + command.now.times.value ≤ most_commands) }
    ensures ok { let p = rules_in program.now
        in let names = program.now.names
        in IfOk result (λ _. command_faults p names session earlier place command.now ≡ []) }
    ensures wrong { let p = rules_in program.now
        in let names = program.now.names
        in IfErr result (Refuses (command_faults p names session earlier place command.now)) }
{
    let number = op_of(program, command)?;
    number_within(SceneLimit::Times, 1, MOST_COMMANDS, command.times)?;
    check_total(earlier + place, command)?;
    let op = &program.ops.as_slice()[number as usize];
    check_call(session, place, op, command.args.as_slice())?;
    Ok(number)
}
