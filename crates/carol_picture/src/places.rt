ghost use Rattle.std.specs.Prelude.{◌≡◌, ◌≤◌, length};
ghost use Rattle.carol_program.specs.Limits.{most_sessions};
ghost use Rattle.carol_picture.specs.Places.{
  home_of,
  lane_width,
  lane_x,
  most_drawn,
  replica_x,
  row_y,
  session_x,
  sessions_at,
  sessions_below,
};

use carol_program::SessionPlan;

// How many of the sessions stand at replicas of lower numbers.
fn sessions_below(plans: &[SessionPlan], replica: u32) -> usize
    ensures value { result ≡ sessions_below plans.now replica }
    ensures few { result ≤ length plans.now }
{
    plans.iter().filter(|plan| plan.replica < replica).count()
}

// How many of the sessions stand at the replica.
fn sessions_at(plans: &[SessionPlan], replica: u32) -> usize
    ensures value { result ≡ sessions_at plans.now replica }
    ensures few { result ≤ length plans.now }
{
    plans.iter().filter(|plan| plan.replica == replica).count()
}

/// The replica at which the session stands.
pub fn home_of(plans: &[SessionPlan], session: u32) -> u32
    ensures { result ≡ home_of plans.now session }
{
    match plans.get(session as usize) {
        Some(plan) => plan.replica,
        None => 0,
    }
}

/// Where the lane of a replica begins.
pub fn lane_x(plans: &[SessionPlan], replica: u32) -> u64
    requires { length plans.now ≤ most_sessions }
    ensures value { result ≡ lane_x plans.now replica }
    ensures near { result ≤ 1_000_000_000_000 }
{
    56 + 72 * u64::from(replica) + 24 * sessions_below(plans, replica) as u64
}

/// How wide the lane of a replica is.
pub fn lane_width(plans: &[SessionPlan], replica: u32) -> u64
    requires { length plans.now ≤ most_sessions }
    ensures value { result ≡ lane_width plans.now replica }
    ensures near { result ≤ 10_000 }
{
    28 + 24 * sessions_at(plans, replica) as u64
}

/// Where a replica stands in its lane.
pub fn replica_x(plans: &[SessionPlan], replica: u32) -> u64
    requires { length plans.now ≤ most_sessions }
    ensures { result ≡ replica_x plans.now replica }
{
    lane_x(plans, replica) + 12
}

/// Where the session's column is: in the lane of its replica, behind those of the sessions there
/// that have lower numbers.
pub fn session_x(plans: &[SessionPlan], session: u32) -> u64
    requires { length plans.now ≤ most_sessions }
    ensures { result ≡ session_x plans.now session }
{
    let home = home_of(plans, session);
    let (lower, _) = plans.split_at((session as usize).min(plans.len()));
    lane_x(plans, home) + 36 + 24 * sessions_at(lower, home) as u64
}

/// Where the row with this number is, from 0.
pub fn row_y(row: usize) -> u64
    requires { row ≤ most_drawn }
    ensures value { result ≡ row_y row }
    ensures near { result ≤ 100_000 }
{
    84 + 20 * row as u64
}
