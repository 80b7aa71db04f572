// Committing: each entry of a placement is booked in its diary (the loop over a placement's selections in `schedule`,
// scheduler/simple.rs; 01, 'Committing'). Its checks are the crate `commit_checks`.
#![tactic(auto)]

ghost use Rattle.std.specs.Prelude.{◌≡◌, true, ◌<◌};
ghost use Rattle.calendar.specs.Limits.{UnitsInRange};
ghost use Rattle.timeline.specs.Valid as timeline;
ghost use Rattle.board.specs.Replies.{entered_of};
ghost use Rattle.scheduler.specs.Committing.{line_with, booked, commit_reply, Bookable};

use board::{Board, Resource};
use calendar::Refusal;
use commit_checks::lines_refusal;
use scheduler::rows::{Row, is_companion, number_in, units_in};

// The resource with a booking more; one with a matrix takes the category, unless it is a companion.
fn book_on(r: Resource, start: u64, end: u64, category: u8, units: u32, companion: bool) -> Resource
    requires { (timeline.valid r.timeline ≡ true) × (r.timeline.len < 64) × Bookable start end category × UnitsInRange units }
    ensures { result ≡ booked start end category (line_with r.number units companion) r }
{
    let timeline = r.timeline.book(start, end, units).timeline;
    let booked = Resource { timeline, ..r };
    if r.matrix.present && !companion {
        board::with_last(booked, Some(category))
    } else {
        booked
    }
}

// Books the first `count` entries of the slate, or refuses: a board that breaks the rules; no entries: accepted; a count above the slate;
// then its rows. The slate comes whole with the count beside it, as refusal 7 is for a count above the slate.
pub fn commit(
    b: Board,
    slate: &[Row],
    count: usize,
    start: u64,
    end: u64,
    category: u8,
) -> Result<Board, Refusal>
    ensures { entered_of b result ≡ commit_reply b slate.now count start end category }
{
    let p = board_rules::places_of(b).ok_or(Refusal::Invalid)?;
    if count == 0 {
        return Ok(b);
    }
    if count > slate.len() {
        return Err(Refusal::Slate);
    }
    let rows = &slate[..count];
    lines_refusal(&p, rows, start, end, category)?;
    let mut board = b;
    for row in rows {
        let number = number_in(*row) as usize;
        let place = p.places[number];
        board.resources[place] = book_on(
            board.resources[place],
            start,
            end,
            category,
            units_in(*row) as u32,
            is_companion(*row),
        );
    }
    Ok(board)
}
