ghost use Rattle.std.specs.Prelude.{◌≤◌, ◌^◌, ◌↔◌, IsTrue};

/// How many assignments are tried at the most.
pub const MOST_ASSIGNMENTS: u32 = 4_096;

/// Whether so many slots have at most `MOST_ASSIGNMENTS` assignments of so many guards.
pub fn are_few(guards: u32, slots: u32) -> bool
    requires { guards ≤ MOST_ASSIGNMENTS }
    ensures { IsTrue result ↔ (guards ^ slots ≤ MOST_ASSIGNMENTS) }
{
    let mut count = 1;
    for _slot in 0..slots {
        count *= guards;
        if count > MOST_ASSIGNMENTS {
            return false;
        }
    }
    true
}
