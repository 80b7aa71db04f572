// An order as it is made, and with one thing changed.
ghost use Rattle.std.specs.Prelude.{◌≡◌, ◌≤◌};
ghost use Rattle.activity.specs.Order.{order_with, with_release, with_requirement, with_timing};

use crate::{Activity, ActivityDuration, ResourceRequirement, ResourceTiming};
use calendar::Calendar;

// An order with no requirement and no timing.
#[tactic(auto, unfolding(crate::specs::Order::order_with))]
pub fn order_with(
    category: u8,
    duration: ActivityDuration,
    resumable: bool,
    release: Option<u64>,
    calendar: Calendar,
    origins: u16,
) -> Activity
    ensures { result ≡ order_with category duration resumable release calendar origins }
{
    let none = ResourceRequirement {
        kind: 0,
        candidates: 0,
        skills: 0,
        quantity: 0,
        usage: 0,
    };
    Activity {
        category,
        duration,
        resumable,
        release,
        calendar,
        origins,
        requirements: [none; 4],
        len: 0,
        timings: [ResourceTiming::Nothing; 16],
    }
}

// The order with another release.
pub fn with_release(a: Activity, release: Option<u64>) -> Activity
    ensures { result ≡ with_release a release }
{
    Activity { release, ..a }
}

// One requirement more. Four are kept; of a fifth only the count tells, and 5 stands for any count above.
#[tactic(auto, unfolding(crate::specs::Order::with_requirement))]
pub fn with_requirement(activity: Activity, q: ResourceRequirement) -> Activity
    ensures { result ≡ with_requirement activity q }
{
    let n = activity.len;
    if n > 4 {
        return activity;
    }
    let mut a = activity;
    a.len = n + 1;
    if n < 4 {
        a.requirements[n] = q;
    }
    a
}

// The order with a timing on the resource of a number.
pub fn with_timing(activity: Activity, number: u8, timing: ResourceTiming) -> Activity
    requires { number ≤ 15 }
    ensures { result ≡ with_timing activity number timing }
{
    let mut a = activity;
    a.timings[number as usize] = timing;
    a
}
