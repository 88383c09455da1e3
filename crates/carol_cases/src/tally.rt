use crate::case::Case;
use crate::trial::is_right;
use anyhow::anyhow;
use std::sync::Wait;
use std::thread::Threads;

/// How many cases were tried, and how many came out as they are to.
#[derive(Clone, Copy, Debug)]
pub struct Tally {
    /// All of them.
    pub tried: u32,
    /// Those that did.
    pub right: u32,
}

impl Tally {
    // Counts one more case.
    fn count(&mut self, is_right: bool) {
        self.tried = self.tried.saturating_add(1);
        if is_right {
            self.right = self.right.saturating_add(1);
        }
    }
}

/// Tries the cases of a file.
pub fn try_file<R: Threads + Wait + Sync + AllocGlobal + Print>(
    rt: &R,
    text: &str,
) -> anyhow::Result<Tally> {
    let alloc = rt.alloc();
    let mut tally = Tally { tried: 0, right: 0 };
    let mut begun: Option<Case> = None;
    for line in text.split('\n') {
        let (mark, rest) = line.split_once(' ').unwrap_or((line, ""));
        if mark == "=" {
            if let Some(case) = &begun {
                tally.count(is_right(rt, case)?);
            }
            begun = Some(Case::new(alloc, rest)?);
        } else if !mark.is_empty() {
            let case = begun.as_mut().ok_or_else(|| anyhow!("no case is begun"))?;
            case.note(alloc, mark, rest)?;
        }
    }
    if let Some(case) = &begun {
        tally.count(is_right(rt, case)?);
    }
    Ok(tally)
}
