ghost use Rattle.std.specs.Prelude.{◌≡◌, ℕ, ◌<◌, ◌≤◌, length, count_by};
ghost use Rattle.carol_program.specs.Limits.{most_commands};
ghost use Rattle.carol_program.specs.Scenes.{commands_in};
ghost use Rattle.carol_history.specs.Journals.{journal};
ghost use Rattle.carol_house.specs.House.{HasPlanned};
ghost use Rattle.carol_report.specs.Issues.{is_issue};
ghost use Rattle.carol_report.specs.Summary.{is_refused, refused_in, refused_of};

use carol_event::Event;
use carol_house::House;
use carol_program::Scene;
use carol_reading::Outcome;

/// How many commands the scene's sessions have, which are at most 4,096.
pub fn commands_in(scene: &Scene) -> u32
    requires { commands_in scene.now.sessions ≤ most_commands }
    ensures { result ≡ commands_in scene.now.sessions }
{
    let mut count = 0;
    for plan in scene.sessions.as_slice() {
        count += plan.commands.len() as u32;
    }
    count
}

/// How many entries the house's journal has.
pub fn entries_in(house: &House) -> usize
    ensures { result ≡ length (journal house.now.history) }
{
    issues_in(house.history())
}

// How many of the events are issues.
fn issues_in(events: &[Event]) -> usize
    ensures { result ≡ count_by is_issue events.now }
{
    events.iter().filter(|event| is_issue(event)).count()
}

// Whether the event is an issue.
fn is_issue(event: &Event) -> bool
    ensures { result ≡ is_issue event.now }
{
    matches!(event, Event::Issue { .. })
}

/// How many of the house's commands were refused.
pub fn refused_in(house: &House) -> u32
    ensures { result ≡ refused_in house.now.scene house.now.history 0 house.now.scene.sessions }
{
    let mut count = 0;
    for (session, plan) in house.scene().sessions.as_slice().iter().enumerate() {
        count += refused_of(house, session as u32, plan.commands.len() as u32);
    }
    count
}

// How many of the session's commands were refused, of which there are `count`.
fn refused_of(house: &House, session: u32, count: u32) -> u32
    requires { (command : ℕ) → command < count → HasPlanned house.now.scene session command }
    ensures refused { result ≡ refused_of house.now.scene house.now.history session count }
    ensures few { result ≤ count }
{
    let mut refused = 0;
    for command in 0..count {
        if is_refused(house.outcome(session, command)) {
            refused += 1;
        }
    }
    refused
}

// Whether a command came out as refused.
fn is_refused(outcome: Outcome) -> bool
    ensures { result ≡ is_refused outcome }
{
    match outcome {
        Outcome::NotDone | Outcome::Value(_) => false,
        Outcome::Refused(_) => true,
    }
}
