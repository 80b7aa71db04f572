// Fitting of resumable work: the least start over joint working time from which all are free to the joint end (`place_resumable` in
// scheduler/simple.rs; 01, 'Fitting').
// Searched are the choosing instant and the start candidates of all diaries after it, in rising order, each with the end of the work over
// the joint working time, which is laid out once. Each instant tried is later than the last and an event on one of the diaries or on the
// own calendar, so it ends. The Rust gathers and sorts the same instants first, and has no rounds here.
#![tactic(auto)]

ghost use Rattle.std.specs.Prelude.{◌≡◌, true};
ghost use Rattle.timeline.specs.Valid.{valid};
ghost use Rattle.scheduler.specs.Fitting.{shares_of};
ghost use Rattle.place_entries.specs.Cells.{first_entries};
ghost use Rattle.place_fit.specs.Closing.{Fittable, closing, fit_of};
ghost use Rattle.place_resume.specs.Trials.{if_free};

use board::Board;
use calendar::Calendar;
use calendar::limits::NEVER;
use place_entries::Entries;
use place_fit::diary_at;
use timeline::ResourceTimeline;

// The end of the work from an instant, where the units of one diary more are free up to it.
fn free_too(d: &ResourceTimeline, units: u32, at: u64, end: Option<u64>) -> Option<u64>
    requires { valid d.now ≡ true }
    ensures { result ≡ if_free d.now units at end }
{
    let e = end?;
    timeline_free::is_free(*d, at, e, units).then_some(e)
}

// Resumable: the calendars are gathered and their joint time laid out, then one instant after another is tried on all diaries.
pub fn fit_resumable(
    b: Board,
    e: Entries,
    places: &[usize; 16],
    own: Calendar,
    work: u64,
    from: u64,
) -> Option<(u64, u64)>
    requires { Fittable b places.now own e from work }
    ensures { fit_of result ≡ closing true (shares_of b (first_entries e)) own work from }
{
    let first = place_fit::own_timeline(own);
    let mut cs = [own; 25];
    for i in 0..e.count + 1 {
        let (d, _) = diary_at(&b, &e, places, &first, i);
        cs[i] = d.calendar;
    }
    let joint = calendar_joint::joint_time(&cs[..e.count + 1], from);
    let mut at = from;
    // A `while`: the next instant to try is the first event after this one, on whichever diary.
    while at < NEVER {
        let mut end = calendar_work::work_end(&joint.edges[..joint.len], at, work);
        let mut next = NEVER;
        for i in 0..e.count + 1 {
            let (d, units) = diary_at(&b, &e, places, &first, i);
            end = free_too(d, units, at, end);
            next = next.min(timeline_candidates::next_start_candidate(*d, at));
        }
        if let Some(x) = end {
            return Some((at, x));
        }
        at = next;
    }
    None
}
