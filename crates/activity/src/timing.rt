// One timing more: the product of speeds, and the own durations of greatest total (the loop of the Rust's `timed_duration`).
ghost use Rattle.std.specs.Prelude.{◌≡◌};
ghost use Rattle.activity.specs.Durations.{total as total_of, times as times_of, greater as greater_of};
ghost use Rattle.activity.specs.Lawful.{Short, LawfulTiming, LawfulLead, leading_of};

use crate::{ActivityDuration, ResourceTiming};

// The product so far, with one timing more.
pub fn times(product: f64, timing: ResourceTiming) -> f64
    ensures { result ≡ times_of product timing }
{
    match timing {
        ResourceTiming::Speed(s) => product * s,
        ResourceTiming::Nothing | ResourceTiming::Duration(_) => product,
    }
}

// The Rust's `total_ms`.
fn total(d: ActivityDuration) -> u64
    requires { Short d }
    ensures { result ≡ total_of d }
{
    d.setup + d.process + d.teardown
}

// The own durations that lead (the Rust's `fixed`), with one timing more: only a greater total takes their place.
pub fn greater(fixed: Option<ActivityDuration>, timing: ResourceTiming) -> Option<ActivityDuration>
    requires lawful_lead { LawfulLead (leading_of fixed) }
    requires lawful_timing { LawfulTiming timing }
    ensures { leading_of result ≡ greater_of (leading_of fixed) timing }
{
    match (fixed, timing) {
        (Some(f), ResourceTiming::Duration(d)) if total(f) < total(d) => Some(d),
        (None, ResourceTiming::Duration(d)) => Some(d),
        _ => fixed,
    }
}
