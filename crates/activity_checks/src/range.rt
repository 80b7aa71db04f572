// The ranges that an order must keep, each over the whole order (01, 'Placing': 1, 6, 3); those of speeds stand in speed.rt.
ghost use Rattle.std.specs.Prelude.{◌≡◌, ◌≤◌, take};
ghost use Rattle.cells.specs.Every.{every};
ghost use Rattle.activity.specs.Check.{release_right, short, timing_short, quantities_right, usage_right};

use activity::{ActivityDuration, ResourceRequirement, ResourceTiming};
use calendar::limits::{LAST_INSTANT, LONGEST_DURATION, MOST_UNITS};

// The release, where there is one, is from 0 to 2^42.
#[tactic(auto, unfolding(activity::specs::Check::release_right))]
pub fn is_instant(release: Option<u64>) -> bool
    ensures { result ≡ release_right release }
{
    match release {
        None => true,
        Some(from) => from <= LAST_INSTANT,
    }
}

// Each of the three is from 0 to 2^36.
#[tactic(auto, unfolding(activity::specs::Check::short))]
pub fn is_short(d: ActivityDuration) -> bool
    ensures { result ≡ short d }
{
    d.setup <= LONGEST_DURATION && d.process <= LONGEST_DURATION && d.teardown <= LONGEST_DURATION
}

// Own durations, where the timing has them, are short.
fn timing_short(timing: ResourceTiming) -> bool
    ensures { result ≡ timing_short timing }
{
    match timing {
        ResourceTiming::Duration(d) => is_short(d),
        ResourceTiming::Nothing | ResourceTiming::Speed(_) => true,
    }
}

// The own durations of all timings are short.
pub fn timings_short(timings: [ResourceTiming; 16]) -> bool
    ensures { result ≡ every timing_short timings }
{
    timings.iter().all(|t| timing_short(*t))
}

// Each quantity is at least 1, and the total at most 8. (Four cells and a count: no more than four are ever added up.)
pub fn quantities_right(requirements: [ResourceRequirement; 4], len: usize) -> bool
    requires { len ≤ 4 }
    ensures { result ≡ quantities_right (take len requirements) }
{
    let mut total: u64 = 0;
    for q in &requirements[..len] {
        if q.quantity < 1 {
            return false;
        }
        total += q.quantity as u64;
    }
    total <= 8
}

// Each usage is from 1 to 10,000.
pub fn usages_right(requirements: [ResourceRequirement; 4], len: usize) -> bool
    requires { len ≤ 4 }
    ensures { result ≡ every usage_right (take len requirements) }
{
    requirements[..len]
        .iter()
        .all(|q| (1..=MOST_UNITS).contains(&q.usage))
}
