ghost use Rattle.std.specs.Prelude.{◌≡◌, ◌++◌, IfOk, OnOk, flat_map};
ghost use Rattle.std.specs.String.{string_bytes};
ghost use Rattle.carol_event.specs.Texts.{event_line};
ghost use Rattle.carol_house.specs.House.{rules_of};
ghost use Rattle.carol_report.specs.Report.{end_line, is_full, last_word, report_text, summary_text};

use crate::results::push_results;
use crate::stores::{push_global, push_stores};
use carol_event::{Event, print_event};
use carol_house::{House, MOST_EVENTS};
use std::alloc::{AllocError, Global};
use std::fmt::Write;

/// The report of the house: a line for each event, one for each command with how it came out, one
/// for each replica's store, the global store, and the number of events, behind `full` where there
/// can be no more of them and a command is not done, and else behind `end`.
#[tactic(auto, unfolding(crate::specs::Report::report_text))]
pub fn report(alloc: Global, house: &House) -> Result<Vec<u8>, AllocError>
    ensures { IfOk result (λ bytes. bytes.items
        ≡ report_text (rules_of house.now) house.now.scene house.now.history) }
{
    let mut out = Vec::new(alloc);
    out.extend_from_slice(b"transcript\n")?;
    push_events(&mut out, house.history())?;
    let summary = summary(alloc, house)?;
    out.extend_from_slice(summary.as_bytes())?;
    Ok(out)
}

// Appends the lines of events.
fn push_events(out: &mut Vec<u8>, events: &[Event]) -> Result<(), AllocError>
    ensures { OnOk result (out.new.items ≡ out.old.items ++ flat_map event_line events.now) }
{
    for event in events {
        print_event(event, out)?;
    }
    Ok(())
}

// What stands behind the events.
fn summary(alloc: Global, house: &House) -> Result<String, AllocError>
    ensures { IfOk result (λ text. string_bytes text
        ≡ summary_text (rules_of house.now) house.now.scene house.now.history) }
{
    let mut out = String::new(alloc);
    writeln!(out, "results")?;
    push_results(&mut out, house)?;
    writeln!(out, "stores")?;
    push_stores(&mut out, house)?;
    push_global(&mut out, &house.global())?;
    push_end(&mut out, house)?;
    Ok(out)
}

// Appends the last line.
fn push_end(out: &mut String, house: &House) -> Result<(), AllocError>
    ensures { OnOk result (string_bytes out.new ≡ string_bytes out.old
        ++ end_line house.now.scene house.now.history) }
{
    let word = last_word(is_full(house));
    let count = house.history().len();
    writeln!(out, "{word} {count}")
}

// Whether a command is not done, though there can be no more events.
fn is_full(house: &House) -> bool
    ensures { result ≡ is_full house.now.scene house.now.history }
{
    house.history().len() == MOST_EVENTS && !house.all_done()
}

// The word before the number of events.
fn last_word(full: bool) -> &'static str
    ensures { result.now ≡ last_word full }
{
    if full { "full" } else { "end" }
}
