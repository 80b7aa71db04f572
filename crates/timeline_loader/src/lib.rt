// A lent run of window records, added to a calendar or to a diary (models/calendar.rs, TimeWindow; 01, the replies of 'Window or
// block').
#![tactic(auto)]

ghost use Rattle.std.specs.Prelude.{◌≡◌};
ghost use Rattle.calendar.specs.Replies.{added_of};
ghost use Rattle.timeline.specs.Replies.{booked_of};
ghost use Rattle.timeline_loader.specs.Run.{add_one, add_run, add_timeline_run};

use calendar::{Calendar, Refusal};
use timeline::ResourceTimeline;

// A window record: [start, end).
#[derive(Clone, Copy, PartialEq, Eq)]
pub struct TimeWindow {
    pub start: u64,
    pub end: u64,
}

// One record, as a block or as a window: the single-window function.
#[tactic(auto, unfolding(crate::specs::Run::add_one))]
fn add_one(c: Calendar, block: bool, w: TimeWindow) -> Result<Calendar, Refusal>
    ensures { added_of c result ≡ add_one c block w }
{
    if block {
        c.add_block(w.start, w.end)
    } else {
        c.add_window(w.start, w.end)
    }
}

// Adds the records of a run, as blocks or as windows: all of them, or none and why the first bad one is
// refused. (A flag, and no closure: the definition `add_run` takes it.)
pub fn add_run(c: Calendar, block: bool, run: &[TimeWindow]) -> Result<Calendar, Refusal>
    ensures { added_of c result ≡ add_run c block run.now }
{
    if !calendar::is_valid(c) {
        return Err(Refusal::Invalid);
    }
    let mut sofar = c;
    for &w in run {
        sofar = add_one(sofar, block, w)?;
    }
    Ok(sofar)
}

// Adds the records of a run to the calendar of a diary: all of them, or none and why the first bad one is refused.
#[tactic(auto, unfolding(crate::specs::Run::add_timeline_run))]
pub fn add_timeline_run(
    t: ResourceTimeline,
    block: bool,
    run: &[TimeWindow],
) -> Result<ResourceTimeline, Refusal>
    ensures { booked_of t result ≡ add_timeline_run t block run.now }
{
    timeline_windows::calendar_reply(t, add_run(t.calendar, block, run))
}
