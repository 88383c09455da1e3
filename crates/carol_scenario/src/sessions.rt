ghost use Rattle.std.specs.Prelude.{◌≡◌, ◌+◌, ◌<◌, ◌≤◌, ◌++◌, [], IfOk, IfErr, OnOk, length, map, replicate};
ghost use Rattle.std.specs.List.{flat_map};
ghost use Rattle.carol_program.specs.Limits.{most_commands, most_sessions};
ghost use Rattle.carol_program.specs.Rules.{rules_in};
ghost use Rattle.carol_program.specs.WellFormed.{IsWellFormed};
ghost use Rattle.carol_scenario.specs.Meaning.{repeated, session_meaning};
ghost use Rattle.carol_scenario.specs.Faults.{Refuses, times_in, command_faults, commands_faults, session_faults, sessions_faults};

use crate::calls::check_command;
use crate::error::{SceneError, SceneLimit};
use carol_program::{ArgList, Command, CommandList, MOST_SESSIONS, PlanList, Program, SessionPlan};
use carol_syntax::{CommandDecl, SessionDecl};
use std::alloc::{AllocError, Global};

// Appends the call so many times.
fn push_times(
    alloc: Global,
    commands: &mut CommandList,
    op: u32,
    args: &[i64],
    times: u64,
) -> Result<(), AllocError>
    ensures { OnOk result (commands.new
        ≡ commands.old ++ replicate times (record { op = op; args = args.now })) }
{
    for _ in 0..times {
        let args = ArgList::from_slice(alloc, args)?;
        commands.push(Command { op, args })?;
    }
    Ok(())
}

// Appends the commands that a declaration stands for to those before it in its session.
fn add_command(
    alloc: Global,
    commands: &mut CommandList,
    program: &Program,
    session: u32,
    earlier: u32,
    command: &CommandDecl,
) -> Result<(), SceneError>
    requires well_formed { IsWellFormed (rules_in program.now) program.now.names }
    requires few { earlier + length commands.old ≤ most_commands }
    ensures none { let p = rules_in program.now
        in let names = program.now.names
        in let place = length commands.old
        in OnOk result (command_faults p names session earlier place command.now ≡ []) }
    ensures made { OnOk result
        (commands.new ≡ commands.old ++ repeated program.now.names command.now) }
    ensures few { OnOk result
        (earlier + (length commands.old + command.now.times.value) ≤ most_commands) }
    ensures wrong { let p = rules_in program.now
        in let names = program.now.names
        in let place = length commands.old
        in IfErr result (Refuses (command_faults p names session earlier place command.now)) }
{
    let place = commands.len() as u32;
    let op = check_command(program, session, earlier, place, command)?;
    push_times(
        alloc,
        commands,
        op,
        command.args.as_slice(),
        command.times.value,
    )?;
    Ok(())
}

// The commands that the declarations of a session stand for.
fn commands_of(
    alloc: Global,
    program: &Program,
    session: u32,
    earlier: u32,
    declarations: &[CommandDecl],
) -> Result<CommandList, SceneError>
    requires well_formed { IsWellFormed (rules_in program.now) program.now.names }
    requires few { earlier ≤ most_commands }
    ensures none { let p = rules_in program.now
        in let names = program.now.names
        in IfOk result (λ _. commands_faults p names session earlier 0 declarations.now ≡ []) }
    ensures made { IfOk result
        (λ commands. commands ≡ flat_map (repeated program.now.names) declarations.now) }
    ensures few { IfOk result (λ commands. (length commands ≡ times_in declarations.now)
        × (earlier + length commands ≤ most_commands)) }
    ensures wrong { let p = rules_in program.now
        in let names = program.now.names
        in IfErr result (Refuses (commands_faults p names session earlier 0 declarations.now)) }
{
    let mut commands = CommandList::new(alloc);
    for declaration in declarations {
        add_command(alloc, &mut commands, program, session, earlier, declaration)?;
    }
    Ok(commands)
}

// The session of this number, behind so many commands of earlier sessions.
fn plan_of(
    alloc: Global,
    program: &Program,
    replicas: u32,
    session: u32,
    earlier: u32,
    declaration: &SessionDecl,
) -> Result<SessionPlan, SceneError>
    requires well_formed { IsWellFormed (rules_in program.now) program.now.names }
    requires few { earlier ≤ most_commands }
    ensures none { let p = rules_in program.now
        in let names = program.now.names
        in let faults = session_faults p names replicas session earlier declaration.now
        in IfOk result (λ _. faults ≡ []) }
    ensures made { IfOk result
        (λ plan. plan ≡ session_meaning program.now.names declaration.now) }
    ensures few { IfOk result (λ plan. (length plan.commands ≡ times_in declaration.now.commands)
        × (earlier + length plan.commands ≤ most_commands)
        × (session < most_sessions)) }
    ensures wrong { let p = rules_in program.now
        in let names = program.now.names
        in let faults = session_faults p names replicas session earlier declaration.now
        in IfErr result (Refuses faults) }
{
    if session as usize >= MOST_SESSIONS {
        return Err(SceneError::OutOfRange(SceneLimit::Sessions, declaration.span));
    }
    if declaration.replica.value >= u64::from(replicas) {
        return Err(SceneError::NoSuchReplica { session });
    }
    let commands = commands_of(
        alloc,
        program,
        session,
        earlier,
        declaration.commands.as_slice(),
    )?;
    Ok(SessionPlan {
        replica: declaration.replica.value as u32,
        commands,
    })
}

/// The sessions that the declarations of a scene with so many replicas stand for.
pub(crate) fn plans_of(
    alloc: Global,
    program: &Program,
    replicas: u32,
    declarations: &[SessionDecl],
) -> Result<PlanList, SceneError>
    requires { IsWellFormed (rules_in program.now) program.now.names }
    ensures none { let p = rules_in program.now
        in let names = program.now.names
        in IfOk result (λ _. sessions_faults p names replicas 0 0 declarations.now ≡ []) }
    ensures made { IfOk result
        (λ plans. plans ≡ map (session_meaning program.now.names) declarations.now) }
    ensures wrong { let p = rules_in program.now
        in let names = program.now.names
        in IfErr result (Refuses (sessions_faults p names replicas 0 0 declarations.now)) }
{
    let mut plans = PlanList::new(alloc);
    let mut earlier = 0;
    for declaration in declarations {
        let session = plans.len() as u32;
        let plan = plan_of(alloc, program, replicas, session, earlier, declaration)?;
        earlier += plan.commands.len() as u32;
        plans.push(plan)?;
    }
    Ok(plans)
}
