use crate::calls::{BANK, call, call_through, scene_input};
use carol_outer::Gate;
use carol_tool::Status;
use std::sync::atomic::{AtomicBool, Ordering};
use std::test::Fail;
use std::{str, thread};

// A session and the kind of an event that it makes.
type Step = (u32, u8);

const GRANT: u8 = 0;

const ISSUE: u8 = 2;

const RETURN: u8 = 4;

// The most turns that a session is held for another.
const MOST_TURNS: u32 = 10_000_000;

// Holds a session behind one step until another one was made, for at most so many turns.
#[derive(Drop)]
struct HoldingGate {
    behind: Step,
    until: Step,
    turns: u32,
    is_made: AtomicBool,
    is_used_up: AtomicBool,
}

impl HoldingGate {
    fn new(behind: Step, until: Step, turns: u32) -> HoldingGate {
        HoldingGate {
            behind,
            until,
            turns,
            is_made: AtomicBool::new(false),
            is_used_up: AtomicBool::new(false),
        }
    }

    fn hold(&self) {
        for _ in 0..self.turns {
            if self.is_made.load(Ordering::SeqCst) {
                return;
            }
            thread::yield_now();
        }
        self.is_used_up.store(true, Ordering::SeqCst);
    }
}

impl Gate for HoldingGate {
    fn pass(&self, session: u32, kind: u8) {
        if (session, kind) == self.until {
            self.is_made.store(true, Ordering::SeqCst);
        }
        if (session, kind) == self.behind {
            self.hold();
        }
    }
}

const TAKEN_AND_PUT: &[u8] = b"session at 0 {
withdraw(80);
}
session at 1 {
deposit(30);
}
";

const TAKEN_AND_PUT_RESULTS: &str = "results
result 0 0 value 80
result 1 0 value 30
stores
";

const PUT_TWICE: &[u8] = b"session at 0 {
deposit(1);
}
session at 1 {
deposit(2);
}
";

// Whether the first line stands once in the text, and the second one behind it and not before.
fn stand_in_order(text: &str, first: &str, second: &str) -> bool {
    match text.split_once(first) {
        Some((before, behind)) => !before.contains(second) && behind.contains(second),
        None => false,
    }
}

// Each session is held until the other one has returned.
#[test]
fn runs_sessions_in_either_order(rt: HostRuntime) -> Result<(), Fail> {
    let rows: [(Step, Step, &str, &str); 2] = [
        ((0, GRANT), (1, RETURN), "\nreturn 1 30\n", "query 0 0 "),
        ((1, ISSUE), (0, RETURN), "\nreturn 0 80\n", "return 1 30\n"),
    ];
    let input = scene_input(rt.alloc(), BANK, (2, 1), TAKEN_AND_PUT)?;
    for (behind, until, first, second) in &rows {
        let gate = HoldingGate::new(*behind, *until, MOST_TURNS);
        let ran = call_through(&rt, b"run", &[input.as_slice()], &[], 4096, &[], &gate)?;
        let report = str::from_utf8(ran.sink.taken())?;
        assert_eq!(rt; ran.status, Status::Ok);
        assert!(rt; !gate.is_used_up.load(Ordering::SeqCst));
        assert!(rt; stand_in_order(report, *first, *second), "{report}");
        assert!(rt; report.contains(TAKEN_AND_PUT_RESULTS), "{report}");
        assert!(rt; report.contains("\nglobal 50\nend "), "{report}");
        let parts = [input.as_slice(), ran.sink.taken()];
        let heard = call(&rt, b"audit", &parts, &[], 4096, &[])?;
        assert_eq!(rt; heard.status, Status::Ok);
    }
    Ok(())
}

// Nobody waits for an entry here, so only those that gossip pass any on. The session that is held
// waits for itself.
#[test]
fn gossips_while_sessions_run(rt: HostRuntime) -> Result<(), Fail> {
    let input = scene_input(rt.alloc(), BANK, (2, 1), PUT_TWICE)?;
    let gate = HoldingGate::new((1, ISSUE), (1, RETURN), 1_000_000);
    let ran = call_through(&rt, b"run", &[input.as_slice()], &[], 4096, &[], &gate)?;
    let report = str::from_utf8(ran.sink.taken())?;
    assert_eq!(rt; ran.status, Status::Ok);
    assert!(rt; gate.is_used_up.load(Ordering::SeqCst));
    assert!(rt; report.contains("\ndeliver "), "{report}");
    assert!(rt; report.contains("\nglobal 103\nend "), "{report}");
    Ok(())
}

const SEATS: &[u8] = b"program
counter seats = 10;
invariant seats >= 0;
guard low: here.seats <= there.seats;
op buy() gives 0 <= result and result <= 1 {
query v under low;
if 1 <= v.seats {
issue seats -= 1;
return 1;
} else {
return 0;
}
}
end
scene
replicas 4;
tries 16;
workers 4;
gossipers 2;
";

const FOUR_BUYERS: &[u8] = b"session at 0 {
buy() times 4;
}
session at 1 {
buy() times 4;
}
session at 2 {
buy() times 4;
}
session at 3 {
buy() times 4;
}
";

// How many lines of the text begin and end so.
fn count_lines(text: &str, front: &str, back: &str) -> usize {
    text.lines()
        .filter(|line| line.starts_with(front) && line.ends_with(back))
        .count()
}

#[test]
fn sells_no_seat_twice(rt: HostRuntime) -> Result<(), Fail> {
    let alloc = rt.alloc();
    let parts = [SEATS, FOUR_BUYERS, FOUR_BUYERS, b"end\n"];
    let ran = call(&rt, b"run", &parts, &[], 100_000, &[])?;
    let report = str::from_utf8(ran.sink.taken())?;
    assert_eq!(rt; ran.status, Status::Ok);
    assert_eq!(rt; count_lines(report, "result ", ""), 32);
    assert_eq!(rt; count_lines(report, "result ", " open"), 0);
    let sold = count_lines(report, "result ", " value 1");
    let left = 10usize.checked_sub(sold).ok_or("more than ten are sold")?;
    let global = format!(in alloc; "\nglobal {left}\nend ")?;
    assert!(rt; report.contains(global.as_str()), "{report}");
    let parts = [SEATS, FOUR_BUYERS, FOUR_BUYERS, b"end\n", ran.sink.taken()];
    let heard = call(&rt, b"audit", &parts, &[], 4096, &[])?;
    assert_eq!(rt; heard.status, Status::Ok);
    Ok(())
}

// One operation of forty issues, and 64 sessions at one replica that do it 64 times each.
fn long_input<R: AllocGlobal>(rt: &R) -> Result<Vec<u8>, Fail> {
    let alloc = rt.alloc();
    let program = b"program counter c = 0; invariant true; op many() gives true {\n".as_slice();
    let mut many = Vec::from_slice(alloc, program)?;
    for _ in 0..40u32 {
        many.extend_from_slice(b"issue c += 1;\n")?;
    }
    many.extend_from_slice(b"return 0; } end\n")?;
    let mut sessions = Vec::new(alloc);
    for _ in 0..64u32 {
        sessions.extend_from_slice(b"session at 0 { many() times 64; }\n")?;
    }
    scene_input(alloc, &many, (1, 1), &sessions)
}

// A history has at most 131,072 events, and these commands would make more.
#[test]
fn ends_with_a_full_history(rt: HostRuntime) -> Result<(), Fail> {
    let input = long_input(&rt)?;
    let ran = call(&rt, b"run", &[input.as_slice()], &[], 4_000_000, &[])?;
    let report = str::from_utf8(ran.sink.taken())?;
    assert_eq!(rt; ran.status, Status::Full);
    assert!(rt; report.ends_with("\nfull 131072\n"));
    let (events, _) = report.split_once("\nresults\n").ok_or("no results")?;
    assert_eq!(rt; count_lines(events, "", ""), 131_073);
    assert!(rt; count_lines(report, "result ", " open") > 0);
    let parts = [input.as_slice(), ran.sink.taken()];
    let heard = call(&rt, b"audit", &parts, &[], 4096, &[])?;
    assert_eq!(rt; heard.status, Status::Ok);
    assert_eq!(rt; heard.sink.taken(), b"genuine 131072\n".as_slice());
    Ok(())
}
