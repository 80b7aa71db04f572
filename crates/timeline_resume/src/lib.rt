// The least start of resumable work on a diary (`earliest_resumable` in scheduler/timeline.rs; 01, 'Diary'). It is for the crates above:
// the diary is valid, and nothing is checked again.
// Searched are the start candidates in rising order, each with the end of the work over the diary's working time, which is laid out once.
// Each is tried once, so it ends: at most 129 candidates.
#![tactic(auto)]

ghost use Rattle.std.specs.Prelude.{◌≡◌, true, ◌≤◌};
ghost use Rattle.calendar.specs.Limits.{last_asked, longest_span};
ghost use Rattle.timeline.specs.Valid.{valid};
ghost use Rattle.timeline.specs.Earliest.{earliest_resumable};
ghost use Rattle.timeline.specs.Ask.{resumed};
ghost use Rattle.timeline_resume.specs.Steps.{resumable_of};

use timeline::ResourceTimeline;

// The candidates tried in rising order, each with the work's end over the edges.
fn first_resumable(t: ResourceTimeline, from: u64, work: u64, units: u32) -> Option<(u64, u64)>
    requires { (valid t ≡ true) × (from ≤ last_asked) × (work ≤ longest_span) × (units ≤ t.capacity) }
    ensures { resumable_of result ≡ resumed t work (earliest_resumable t from work units) }
{
    let room = (t.capacity - units) as u64;
    let mut edges = [0; 128];
    let m = calendar_joint::working_time(t.calendar, &mut edges);
    let mut listed = [0; 129];
    let n = timeline_candidates::start_candidates(t, from, &mut listed);
    // By index: the lemmas of the search speak of a candidate by its place in the whole list; with `&listed[..n]` the proof did not close.
    for i in 0..n {
        let at = listed[i];
        if let Some(end) = calendar_work::work_end(&edges[..m], at, work) {
            if timeline_free::free_over(&t, at, end, room) {
                return Some((at, end));
            }
        }
    }
    None
}

// The least working start at or after `from` where units are free up to the work's end, and that end.
pub fn earliest_resumable(
    t: ResourceTimeline,
    from: u64,
    work: u64,
    units: u32,
) -> Option<(u64, u64)>
    requires { (valid t ≡ true) × (from ≤ last_asked) × (work ≤ longest_span) }
    ensures { resumable_of result ≡ resumed t work (earliest_resumable t from work units) }
{
    if units > t.capacity {
        return None;
    }
    first_resumable(t, from, work, units)
}
