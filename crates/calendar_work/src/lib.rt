// The end of work over working time that is laid out as the rising instants at which it begins and ends (JointTime::work_end in
// models/calendar.rs; 01, 'Calendar').
#![tactic(auto)]

ghost use Rattle.std.specs.Prelude.{◌≡◌, ◌≤◌, ◌<◌, length};
ghost use Rattle.calendar.specs.Limits.{never};
ghost use Rattle.calendar.specs.Work.{work_end};
ghost use Rattle.cells.specs.Cells.{before, Rising, Before};
ghost use Rattle.calendar_work.specs.Layout.{laid, Edges, found_of};

// When work that starts at `start` ends: none from a pause or with too little time left.
pub fn work_end(edges: &[u64], start: u64, work: u64) -> Option<u64>
    requires bounds { (length edges.now ≤ 4096) × (start < never) × (work < never) }
    requires edges { Edges edges.now (length edges.now) }
    ensures { found_of result ≡ work_end (before edges.now (length edges.now)) (laid edges.now (length edges.now)) start work }
{
    let mut k = cells::cells_before(edges, start + 1);
    if k % 2 == 0 {
        return None;
    }
    let mut at = start;
    let mut left = work;
    // A `while`: each turn passes two edges, a piece's end and the next one's beginning, and the last piece may have no end.
    while k < edges.len() {
        let end = edges[k];
        if left <= end - at {
            return Some(at + left);
        }
        if k + 1 == edges.len() {
            return None;
        }
        left -= end - at;
        at = edges[k + 1];
        k += 2;
    }
    Some(at + left)
}
