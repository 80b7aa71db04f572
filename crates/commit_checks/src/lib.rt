// The checks of a commitment's rows (01, 'Committing': 5, 1, 2, 3, 4), each over all of them before the next.
#![tactic(auto)]

ghost use Rattle.std.specs.Prelude.{◌≡◌, true, [], ℕ, ◌<◌, length, get_or};
ghost use Rattle.cells.specs.Every.{every};
ghost use Rattle.calendar.specs.Replies.{refused};
ghost use Rattle.scheduler.specs.Rows.{number_in};
ghost use Rattle.scheduler.specs.Committing.{lines_of};
ghost use Rattle.commit_checks.specs.Lines.{numbered, metered, roomy, Counted, RowsRefusal};

use board_rules::Places;
use calendar::Refusal;
use calendar::limits::{LAST_INSTANT, MOST_UNITS};
use scheduler::rows::{Row, number_in, units_in};

#[tactic(auto, unfolding(crate::specs::Lines::numbered))]
fn is_numbered(row: Row, places: &[usize; 16]) -> bool
    ensures { result ≡ numbered places.now row }
{
    let number = number_in(row);
    number < 16 && places[number as usize] < 16
}

// Each row names a resource on the board.
fn numbers_right(rows: &[Row], places: &[usize; 16]) -> bool
    ensures { result ≡ every (numbered places.now) rows.now }
{
    rows.iter().all(|row| is_numbered(*row, places))
}

#[tactic(auto, unfolding(crate::specs::Lines::metered))]
fn is_metered(row: Row) -> bool
    ensures { result ≡ metered row }
{
    (1..=MOST_UNITS as u64).contains(&units_in(row))
}

// Each of them wants 1 to 10,000 units.
fn units_right(rows: &[Row]) -> bool
    ensures { result ≡ every metered rows.now }
{
    rows.iter().all(|row| is_metered(*row))
}

// How many of the rows name each number.
fn tally_of(rows: &[Row]) -> [u64; 16]
    requires { (k : ℕ) → k < length rows.now → number_in (get_or rows.now k []) < 16 }
    ensures { Counted rows.now (length rows.now) result }
{
    let mut tally = [0; 16];
    for row in rows {
        tally[number_in(*row) as usize] += 1;
    }
    tally
}

#[tactic(auto, unfolding(crate::specs::Lines::numbered, crate::specs::Lines::roomy))]
fn is_roomy(row: Row, p: &Places, tally: &[u64; 16]) -> bool
    requires { numbered p.now.places row ≡ true }
    ensures { result ≡ roomy p.now.places p.now.lens tally.now row }
{
    let number = number_in(row) as usize;
    let taken = p.lens[p.places[number]];
    tally[number] <= 64 - taken
}

// Each diary named has places for all its entries.
fn room_right(rows: &[Row], p: &Places, tally: &[u64; 16]) -> bool
    requires { every (numbered p.now.places) rows.now ≡ true }
    ensures { result ≡ every (roomy p.now.places p.now.lens tally.now) rows.now }
{
    rows.iter().all(|row| is_roomy(*row, p, tally))
}

// Refuses some rows, on any board with these places and as many bookings in its diaries.
pub fn lines_refusal(
    p: &Places,
    rows: &[Row],
    start: u64,
    end: u64,
    category: u8,
) -> Result<(), Refusal>
    ensures { RowsRefusal p.now.places p.now.lens (lines_of (length rows.now) rows.now) start end category (refused result) }
{
    if !numbers_right(rows, &p.places) || category > 15 {
        return Err(Refusal::Number);
    }
    if start > LAST_INSTANT || end > LAST_INSTANT {
        return Err(Refusal::OutOfRange);
    }
    if end <= start {
        return Err(Refusal::EmptySpan);
    }
    if !units_right(rows) {
        return Err(Refusal::Units);
    }
    if !room_right(rows, p, &tally_of(rows)) {
        return Err(Refusal::Full);
    }
    Ok(())
}
