// An order's durations over the resources held, which resource serves, and from when (models/activity.rs; 01, 'Durations, setups,
// transport' and 'Placing'): for the crates above.
ghost use Rattle.std.specs.Prelude.{◌≡◌, ℕ, ◌<◌, ◌≤◌, take, slice_index};
ghost use Rattle.activity.specs.Durations.{duration_on};
ghost use Rattle.activity.specs.Serving.{candidate, serves as serves_of};
ghost use Rattle.activity.specs.Ready.{ready_of};
ghost use Rattle.activity.specs.Lawful.{Lawful};

use crate::timing::{greater, times};
use crate::{ActivityDuration, ResourceRequirement, ResourceTiming};
use activity_speeds::process_at;

// The durations over the first `count` resources held, in holding order (the Rust's `timed_duration`).
pub fn duration_on(
    base: ActivityDuration,
    timings: [ResourceTiming; 16],
    held: [u8; 8],
    count: usize,
) -> ActivityDuration
    requires count_bound { count ≤ 8 }
    requires by_index { (i : ℕ) → i < count → slice_index held i < 16 }
    requires lawful { Lawful base timings }
    ensures { result ≡ duration_on base timings (take count held) }
{
    let mut speed = 1.0;
    let mut fixed = None;
    for number in &held[..count] {
        let timing = timings[*number as usize];
        speed = times(speed, timing);
        fixed = greater(fixed, timing);
    }
    match fixed {
        Some(d) => d,
        None => ActivityDuration {
            process: process_at(base.process, speed),
            ..base
        },
    }
}

// Whether the requirement names the resource, or, naming none, its type.
#[tactic(auto, unfolding(crate::specs::Serving::candidate))]
fn is_candidate(requirement: ResourceRequirement, number: u8, kind: u8) -> bool
    requires { number < 16 }
    ensures { result ≡ candidate requirement number kind }
{
    if requirement.candidates == 0 {
        kind == requirement.kind
    } else {
        (requirement.candidates >> number) & 1 == 1
    }
}

// Whether the resource of this number, type and skills serves the requirement.
pub fn serves(requirement: ResourceRequirement, number: u8, kind: u8, skills: u64) -> bool
    requires { number < 16 }
    ensures { result ≡ serves_of requirement number kind skills }
{
    is_candidate(requirement, number, kind) && requirement.skills & skills == requirement.skills
}

// The later of ready and release.
#[tactic(auto, unfolding(crate::specs::Ready::ready_of))]
pub fn ready_of(release: Option<u64>, ready: u64) -> u64
    ensures { result ≡ ready_of release ready }
{
    match release {
        None => ready,
        Some(from) => from.max(ready),
    }
}
