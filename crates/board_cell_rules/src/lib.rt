// The rules of one resource of a board, and of a cell past the length (01, 'Placing', the board's paragraph, and 'Replies': 15).
#![tactic(auto)]

ghost use Rattle.std.specs.Prelude.{◌≡◌, cond, get_or, length, pos};
ghost use Rattle.cells.specs.Every.{every_from};
ghost use Rattle.board.specs.Valid.{is_zero, own_right, entry_cell, matrix_right, companion_cell, companions_right, last_right};
ghost use Rattle.board.specs.Valid.{resource_right, diary_blank, resource_blank};

use board::{Resource, TransitionMatrix, duration_right, entry_right};
use timeline::ResourceTimeline;

fn is_zero(ms: i64) -> bool
    ensures { result ≡ is_zero ms }
{
    ms == 0
}

// The default or the initial of a matrix.
fn own_right(present: bool, ms: i64) -> bool
    ensures { result ≡ own_right present ms }
{
    if present {
        duration_right(ms)
    } else {
        is_zero(ms)
    }
}

// The pairs or the first entries of a matrix: whether it is there is asked once, and not of each entry.
fn entries_right(present: bool, entries: &[i64]) -> bool
    ensures { result ≡ every_from (λ i. entry_cell present (get_or entries.now i (pos 0))) 0 (length entries.now) }
{
    if present {
        entries.iter().all(|ms| entry_right(*ms))
    } else {
        entries.iter().all(|ms| is_zero(*ms))
    }
}

#[tactic(auto, unfolding(board::specs::Valid::matrix_right))]
fn matrix_right(m: TransitionMatrix) -> bool
    ensures { result ≡ matrix_right m }
{
    own_right(m.present, m.default)
        && own_right(m.present, m.initial)
        && entries_right(m.present, &m.transitions)
        && entries_right(m.present, &m.initials)
}

fn companion_cell(n: usize, i: usize, companion: u8) -> bool
    ensures { result ≡ companion_cell n i companion }
{
    if i < n {
        companion <= 15
    } else {
        companion == 0
    }
}

fn companions_right(companions: &[u8; 4], n: usize) -> bool
    ensures { result ≡ companions_right companions.now n }
{
    if n > 4 {
        return false;
    }
    for (i, companion) in companions.iter().enumerate() {
        if !companion_cell(n, i, *companion) {
            return false;
        }
    }
    true
}

#[tactic(auto, unfolding(board::specs::Valid::last_right))]
fn last_right(last: Option<u8>) -> bool
    ensures { result ≡ last_right last }
{
    match last {
        None => true,
        Some(category) => category <= 15,
    }
}

// A resource keeps the rules.
#[tactic(auto, unfolding(board::specs::Valid::resource_right))]
fn resource_right(r: Resource) -> bool
    ensures { result ≡ resource_right r }
{
    r.number <= 15
        && companions_right(&r.companions, r.count)
        && timeline::is_valid(r.timeline)
        && matrix_right(r.matrix)
        && last_right(r.last)
}

// Capacity 0 and nothing in it; and with a capacity it would keep the rules of a diary, so that every cell of it is 0.
#[tactic(auto, unfolding(board::specs::Valid::diary_blank, timeline::specs::Valid::contents_right, timeline::specs::Valid::valid))]
fn diary_blank(t: ResourceTimeline) -> bool
    ensures { result ≡ diary_blank t }
{
    t.capacity == 0
        && t.len == 0
        && t.calendar.windows.len == 0
        && t.calendar.blocks.len == 0
        && timeline::is_valid(ResourceTimeline { capacity: 1, ..t })
}

// A cell past the length is 0 throughout.
#[tactic(auto, unfolding(board::specs::Valid::resource_blank, board::specs::Valid::last_blank))]
fn resource_blank(r: Resource) -> bool
    ensures { result ≡ resource_blank r }
{
    r.number == 0
        && r.kind == 0
        && r.skills == 0
        && r.count == 0
        && companions_right(&r.companions, 0)
        && diary_blank(r.timeline)
        && !r.matrix.present
        && matrix_right(r.matrix)
        && r.last.is_none()
}

// A cell of the board keeps the rules: those of a resource where there is one, and 0 throughout where there is none.
pub fn cell_right(r: Resource, there: bool) -> bool
    ensures { result ≡ cond there (resource_right r) (resource_blank r) }
{
    if there {
        resource_right(r)
    } else {
        resource_blank(r)
    }
}
