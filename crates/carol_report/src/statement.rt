ghost use Rattle.std.specs.Prelude.{◌≡◌, ◌↔◌, ◌<◌, true, length, IfOk};
ghost use Rattle.carol_history.specs.Legal.{MayLink};
ghost use Rattle.carol_history.specs.declared.script.Statement.TheVariants as statement;
ghost use Rattle.carol_report.specs.Plays.{Makes, cause_of_rest, cause_of_silence, link_of};

use carol_history::{ScriptCause, Statement};
use carol_house::{Gossip, House, MOST_EVENTS, Moved};
use carol_program::Scene;
use std::alloc::AllocError;

/// Runs one statement, and answers why it gave no event where it gave none: a session that is not
/// there comes before one that is finished, and a pair that is not there before one that is cut
/// off, which comes before nothing new.
pub fn run_statement(house: &mut House, line: Statement) -> Result<Option<ScriptCause>, AllocError>
    requires { length house.old.history < MOST_EVENTS }
    ensures { IfOk result (λ bad. Makes house.old line bad house.new) }
{
    match line {
        Statement::Go(session) => go(house, session),
        Statement::Gossip { source, target } => pass_on(house, source, target),
        Statement::Cut { a, b } => link(house, a, b, false),
        Statement::Join { a, b } => link(house, a, b, true),
    }
}

// Advances a session.
fn go(house: &mut House, session: u64) -> Result<Option<ScriptCause>, AllocError>
    requires { length house.old.history < MOST_EVENTS }
    ensures { IfOk result (λ bad. Makes house.old (statement.Go session) bad house.new) }
{
    if session >= house.scene().sessions.len() as u64 {
        return Ok(Some(ScriptCause::NoSuchSession));
    }
    let moved = house.advance(session as u32).map_err(|_| AllocError)?;
    Ok(cause_of_rest(moved))
}

// Passes an entry on.
fn pass_on(house: &mut House, source: u64, target: u64) -> Result<Option<ScriptCause>, AllocError>
    requires { length house.old.history < MOST_EVENTS }
    ensures { IfOk result (λ bad. Makes house.old
        (statement.Gossip source target) bad house.new) }
{
    if !is_pair(house.scene(), source, target) {
        return Ok(Some(ScriptCause::NoSuchPair));
    }
    let gossip = house
        .gossip(source as u32, target as u32)
        .map_err(|_| AllocError)?;
    Ok(cause_of_silence(gossip))
}

// Joins two replicas, or cuts them off from each other.
fn link(house: &mut House, a: u64, b: u64, up: bool) -> Result<Option<ScriptCause>, AllocError>
    requires { length house.old.history < MOST_EVENTS }
    ensures { IfOk result (λ bad. Makes house.old (link_of a b up) bad house.new) }
{
    if !is_pair(house.scene(), a, b) {
        return Ok(Some(ScriptCause::NoSuchPair));
    }
    house.link(a as u32, b as u32, up).map_err(|_| AllocError)?;
    Ok(None)
}

// Whether these are two different replicas of the scene.
fn is_pair(scene: &Scene, a: u64, b: u64) -> bool
    ensures { (result ≡ true) ↔ MayLink scene.now a b }
{
    let replicas = u64::from(scene.replicas);
    a < replicas && b < replicas && a != b
}

// Why a session made no step, if it made none.
fn cause_of_rest(moved: Moved) -> Option<ScriptCause>
    ensures { result ≡ cause_of_rest moved }
{
    match moved {
        Moved::Entered(_) => None,
        Moved::Finished => Some(ScriptCause::Finished),
    }
}

// Why nothing was delivered, if nothing was.
fn cause_of_silence(gossip: Gossip) -> Option<ScriptCause>
    ensures { result ≡ cause_of_silence gossip }
{
    match gossip {
        Gossip::Delivered(_) => None,
        Gossip::NothingNew => Some(ScriptCause::NothingNew),
        Gossip::CutOff => Some(ScriptCause::CutOff),
    }
}
