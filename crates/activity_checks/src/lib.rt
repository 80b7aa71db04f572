// The checks of an order (01, the replies of 'Placing': 15, 5, 1, 6, 3, 8).
#![tactic(auto)]

use activity::Activity;
use calendar::Refusal;
use calendar::limits::LAST_INSTANT;

mod range;
mod speed;

ghost use Rattle.std.specs.Prelude.{◌≡◌};
ghost use Rattle.calendar.specs.Replies.{refused};
ghost use Rattle.activity.specs.Check.{times_right, activity_refusal, check_reply};

use range::{is_instant, is_short, quantities_right, timings_short, usages_right};
use speed::speeds_right;

// Ready, release and every duration of the order are in range.
#[tactic(auto, unfolding(activity::specs::Check::times_right))]
fn times_right(activity: Activity, ready: u64) -> bool
    ensures { result ≡ times_right activity ready }
{
    ready <= LAST_INSTANT
        && is_instant(activity.release)
        && is_short(activity.duration)
        && timings_short(activity.timings)
}

// Refuses an order: a number for its category, out of range for ready, release or a duration, requirements or their quantities, units
// for a usage, a speed. Each over the whole order before the next.
#[tactic(auto, unfolding(activity::specs::Check::activity_refusal))]
pub fn refusal(activity: Activity, ready: u64) -> Result<(), Refusal>
    ensures { refused result ≡ activity_refusal activity ready }
{
    if activity.category > 15 {
        return Err(Refusal::Number);
    }
    if !times_right(activity, ready) {
        return Err(Refusal::OutOfRange);
    }
    if activity.len > 4 || !quantities_right(activity.requirements, activity.len) {
        return Err(Refusal::Requirements);
    }
    if !usages_right(activity.requirements, activity.len) {
        return Err(Refusal::Units);
    }
    if !speeds_right(activity.timings) {
        return Err(Refusal::Speed);
    }
    Ok(())
}

// Refuses an order at this ready: invalid where its own calendar breaks the rules, then as `refusal`.
#[tactic(auto, unfolding(activity::specs::Check::check_reply))]
pub fn check(activity: Activity, ready: u64) -> Result<(), Refusal>
    ensures { refused result ≡ check_reply activity ready }
{
    if !calendar::is_valid(activity.calendar) {
        return Err(Refusal::Invalid);
    }
    refusal(activity, ready)
}
