// The durations of an order over the resources held, for a caller that has checked nothing (duration_on in models/activity.rs; 01,
// durations and speeds).
#![tactic(auto)]

ghost use Rattle.std.specs.Prelude.{◌≡◌};
ghost use Rattle.activity.specs.Check.{held_right, reply_of, duration_reply};

use activity::{Activity, ActivityDuration};
use calendar::Refusal;

// At most eight numbers are held, each of a resource.
#[tactic(auto, unfolding(activity::specs::Check::held_right))]
fn held_right(held: [u8; 8], count: usize) -> bool
    ensures { result ≡ held_right held count }
{
    count <= 8 && held[..count].iter().all(|n| *n <= 15)
}

// The order's durations over the first `count` resources held, or refuses: its calendar, a number held, then as
// `activity_checks::refusal` at ready 0. (An array and a count, and no slice of it: a count above 8 is refused here.)
pub fn duration_on(
    activity: Activity,
    held: [u8; 8],
    count: usize,
) -> Result<ActivityDuration, Refusal>
    ensures { reply_of result ≡ duration_reply activity held count }
{
    if !calendar::is_valid(activity.calendar) {
        return Err(Refusal::Invalid);
    }
    if !held_right(held, count) {
        return Err(Refusal::Number);
    }
    activity_checks::refusal(activity, 0)?;
    Ok(activity::basics::duration_on(activity.duration, activity.timings, held, count))
}
