ghost use Rattle.std.specs.Prelude.{◌≡◌, ◌<◌, ◌^◌, [], IfOk, IfErr};
ghost use Rattle.carol_scenario.specs.Faults.{Refuses, range_faults};

use crate::error::{SceneError, SceneLimit};
use carol_syntax::Num;

pub(crate) const MOST_TRIES: u64 = 16;

pub(crate) const MOST_WORKERS: u64 = 16;

pub(crate) const MOST_GOSSIPERS: u64 = 8;

/// The most commands of all sessions together, and so the most times that one of them stands.
pub(crate) const MOST_COMMANDS: u64 = 4096;

/// The number, which is to be from the least to the most.
pub(crate) fn number_within(
    limit: SceneLimit,
    least: u64,
    most: u64,
    number: Num,
) -> Result<u32, SceneError>
    requires { most < 2 ^ 32 }
    ensures ok { IfOk result
        (λ n. (range_faults limit least most number ≡ []) × (n ≡ number.value)) }
    ensures wrong { IfErr result (Refuses (range_faults limit least most number)) }
{
    if least <= number.value && number.value <= most {
        Ok(number.value as u32)
    } else {
        Err(SceneError::OutOfRange(limit, number.span))
    }
}
