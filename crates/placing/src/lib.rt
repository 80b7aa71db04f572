// Placing an order on a board (`place_activity` in scheduler/simple.rs; 01, 'Placing' and its replies).
#![tactic(auto)]

ghost use Rattle.std.specs.Prelude.{◌≡◌, ◌≤◌, ◌++◌, map, length, drop, true};
ghost use Rattle.activity.specs.Check.{activity_refusal};
ghost use Rattle.board.specs.declared.Board as declared;
ghost use Rattle.board.specs.Places.{Known};
ghost use Rattle.board.specs.Valid.{valid};
ghost use Rattle.calendar.specs.Replies.{refused};
ghost use Rattle.scheduler.specs.Placing.{slate_after, place_refusal, place_reply};
ghost use Rattle.scheduler.specs.Rows.{row_of};
ghost use Rattle.placing.specs.Sought.{Sought};
ghost use Rattle.placing.specs.Told.{told, answer_of};

use activity::Activity;
use board::Board;
use calendar::Refusal;
use place_entries::Spanned;
use scheduler::Entry;
use scheduler::rows::Row;

// The numbers of a placement: the choosing instant, the start and the end, and how many entries stand at the front of the slate.
#[derive(Clone, Copy)]
pub struct Placed {
    pub choosing: u64,
    pub start: u64,
    pub end: u64,
    pub count: usize,
}

// What placing answers where it does not refuse: a placement, 'chosen, none' with the choosing instant, or none.
#[derive(Clone, Copy)]
pub enum PlaceReply {
    Placed(Placed),
    ChosenNone(u64),
    None,
}

// Writes the entries at the front of the slate.
fn write(slate: &mut [Row], entries: &[Entry])
    requires { length entries.now ≤ length slate.old }
    ensures { slate.new ≡ map row_of entries.now ++ drop (length entries.now) slate.old }
{
    for (i, e) in entries.iter().enumerate() {
        slate[i] = scheduler::rows::row_of(*e);
    }
}

// Refuses a placing on a board that keeps the rules: an own calendar that breaks them, a slate under 24 entries, then the order.
#[tactic(auto, unfolding(scheduler::specs::Placing::place_refusal))]
fn check(a: Activity, ready: u64, slate: usize) -> Result<(), Refusal>
    ensures { (b : declared.Board) → valid b ≡ true → refused result ≡ place_refusal b a ready slate }
{
    if !calendar::is_valid(a.calendar) {
        return Err(Refusal::Invalid);
    }
    if slate < 24 {
        return Err(Refusal::Slate);
    }
    activity_checks::refusal(a, ready)
}

// From when on a fit is sought, and for which entries and what span: those of the choice, none where there is none. An order without
// requirements has no entries, and is fitted from ready on.
fn sought(b: Board, a: Activity, ready: u64, places: &[usize; 16]) -> Option<(u64, Spanned)>
    requires { (valid b ≡ true) × (activity_refusal a ready ≡ 0) × Known b places.now }
    ensures { Sought b a ready result }
{
    if a.len == 0 {
        let span = a.duration.setup + a.duration.process + a.duration.teardown;
        let entries = place_entries::no_entries();
        return Some((ready, Spanned { entries, span }));
    }
    let c = place_choice::choose(b, a, ready, places)?;
    let x = place_entries::entries_of(&c.plans, a, &c.held.cells[..c.held.count]);
    Some((c.instant, x))
}

// Places the order from ready on, and writes the entries of a placement at the front of the slate; or refuses: a board or an own calendar
// that breaks the rules, a slate under 24 entries, then the order.
pub fn place_activity(
    b: Board,
    a: Activity,
    ready: u64,
    slate: &mut [Row],
) -> Result<PlaceReply, Refusal>
    ensures value { answer_of result ≡ told (place_reply b a ready (length slate.old)) }
    ensures slate_after { slate.new ≡ slate_after (place_reply b a ready (length slate.old)) slate.old }
{
    let p = board_rules::places_of(b).ok_or(Refusal::Invalid)?;
    check(a, ready, slate.len())?;
    let from = activity::basics::ready_of(a.release, ready);
    let Some((t, x)) = sought(b, a, from, &p.places) else {
        return Ok(PlaceReply::None);
    };
    let f = if a.resumable {
        place_resume::fit_resumable(b, x.entries, &p.places, a.calendar, x.span, t)
    } else {
        place_fit::fit_unbroken(b, x.entries, &p.places, a.calendar, x.span, t)
    };
    let Some((start, end)) = f else {
        return Ok(PlaceReply::ChosenNone(t));
    };
    write(slate, &x.entries.entries[..x.entries.count]);
    Ok(PlaceReply::Placed(Placed {
        choosing: t,
        start,
        end,
        count: x.entries.count,
    }))
}
