// The order in hand: a new one, its requirements and its timings (docs/RECORDS.md, kinds 21 to 24). Its values are taken unchecked.
ghost use Rattle.std.specs.Prelude.{◌≡◌, ◌+◌, ◌≤◌, length};
ghost use Rattle.record_bodies.specs.Bodies.{fixed_len};
ghost use Rattle.record_bodies.specs.Kinds.{part_number};
ghost use Rattle.record_board.specs.Orders.{duration_at, release_of, requirement_at, timed};
ghost use Rattle.record_board.specs.Replies.{stepped_of, ordered_of};
ghost use Rattle.record_board.specs.Orders.{part_reply, flag_above, order_by, order_does};

use activity::order::{order_with, with_requirement, with_timing};
use activity::{Activity, ActivityDuration, ResourceRequirement, ResourceTiming};
use calendar::{Calendar, Refusal};
use record_bodies::{Part, number};
use record_desk::Desk;
use std::num::f64_from_bits_with_nan;
use timeline::ResourceTimeline;

// Setup, process, teardown.
fn duration_at(bytes: &[u8], at: usize) -> ActivityDuration
    requires { at + 24 ≤ length bytes.now }
    ensures { result ≡ duration_at bytes.now at }
{
    ActivityDuration {
        setup: number(bytes, at, 8),
        process: number(bytes, at + 8, 8),
        teardown: number(bytes, at + 16, 8),
    }
}

#[tactic(auto, unfolding(crate::specs::Orders::release_of))]
fn release_of(present: u8, release: u64) -> Option<u64>
    ensures { result ≡ release_of present release }
{
    (present == 1).then_some(release)
}

fn flag_above(bytes: &[u8], at: usize) -> bool
    requires { at + 38 ≤ length bytes.now }
    ensures { result ≡ flag_above bytes.now at }
{
    bytes[at + 25] > 1 || bytes[at + 26] > 1 || bytes[at + 37] > 1
}

// The order of a body, with this calendar.
#[tactic(auto, unfolding(crate::specs::Orders::order_by))]
fn order_by(bytes: &[u8], at: usize, calendar: Calendar) -> Activity
    requires { at + 38 ≤ length bytes.now }
    ensures { result ≡ order_by bytes.now at calendar }
{
    let duration = duration_at(bytes, at + 1);
    let release = release_of(bytes[at + 26], number(bytes, at + 27, 8));
    let origins = number(bytes, at + 35, 2) as u16;
    order_with(
        bytes[at],
        duration,
        bytes[at + 25] == 1,
        release,
        calendar,
        origins,
    )
}

// Kind 21: a new order in hand. Where it takes the diary's calendar, an empty diary is in hand afterwards. A flag
// above 1: Unreadable (9).
#[tactic(auto, unfolding(crate::specs::Orders::order_does, crate::specs::Orders::order_at))]
pub fn new_order(desk: Desk, bytes: &[u8], at: usize) -> Result<Desk, Refusal>
    requires { at + 38 ≤ length bytes.now }
    ensures { stepped_of desk result ≡ order_does desk bytes.now at }
{
    if flag_above(bytes, at) {
        return Err(Refusal::Unreadable);
    }
    if bytes[at + 37] == 0 {
        let activity = order_by(bytes, at, Calendar::new());
        return Ok(Desk { activity, ..desk });
    }
    let activity = order_by(bytes, at, desk.timeline.calendar);
    let timeline = ResourceTimeline::new(1);
    Ok(Desk {
        timeline,
        activity,
        ..desk
    })
}

// A timing on the resource of this number: Number (5) above 15.
fn timed(activity: Activity, number: u8, timing: ResourceTiming) -> Result<Activity, Refusal>
    ensures { ordered_of activity result ≡ timed activity number timing }
{
    if number > 15 {
        return Err(Refusal::Number);
    }
    Ok(with_timing(activity, number, timing))
}

fn requirement_at(bytes: &[u8], at: usize) -> ResourceRequirement
    requires { at + 19 ≤ length bytes.now }
    ensures { result ≡ requirement_at bytes.now at }
{
    ResourceRequirement {
        kind: bytes[at],
        candidates: number(bytes, at + 1, 2) as u16,
        skills: number(bytes, at + 3, 8),
        quantity: number(bytes, at + 11, 4) as u32,
        usage: number(bytes, at + 15, 4) as u32,
    }
}

// Kinds 22 to 24: one requirement more, or a timing, a speed or own durations; Number for a number above 15.
#[tactic(auto, unfolding(crate::specs::Orders::part_reply, crate::specs::Orders::timing_at, record_bodies::specs::Bodies::fixed_len))]
pub fn part(activity: Activity, part: Part, bytes: &[u8], at: usize) -> Result<Activity, Refusal>
    requires { at + fixed_len (part_number part) ≤ length bytes.now }
    ensures { ordered_of activity result ≡ part_reply activity (part_number part) bytes.now at }
{
    match part {
        Part::Requirement => Ok(with_requirement(activity, requirement_at(bytes, at))),
        Part::Speed => {
            let speed = f64_from_bits_with_nan(number(bytes, at + 1, 8));
            timed(activity, bytes[at], ResourceTiming::Speed(speed))
        }
        Part::Durations => {
            let durations = duration_at(bytes, at + 1);
            timed(activity, bytes[at], ResourceTiming::Duration(durations))
        }
    }
}
