// What a record of a stream does in `offer` (docs/RECORDS.md, kinds 1 to 4 and 16 to 26): to a diary in hand, an order in hand, a board
// and a slate.
#![tactic(auto)]

ghost use Rattle.std.specs.Prelude.{◌≡◌, ◌+◌, ◌≤◌, length};
ghost use Rattle.scheduler.specs.Placing.{slate_after};
ghost use Rattle.placing.specs.Told.{answer_of as answer_to};
ghost use Rattle.record_board.specs.Replies.{stepped_of};
ghost use Rattle.record_offer.specs.Replies.{tells, turn_of};
ghost use Rattle.record_offer.specs.Offers.{answer_of, placing as placing_of, placed_answer, commit_does};
ghost use Rattle.record_offer.specs.Offers.{told as told_of, ends, turn_reply, shown, SlateTurned};

mod kinds;

use calendar::Refusal;
use kinds::OfferKind;
use placing::{PlaceReply, Placed};
use record_board::step;
use record_bodies::{Turn, last, number};
use record_desk::Desk;
use scheduler::rows::Row;

// What a record answers; `Nothing` prints nothing. It is no Option of an answer: the definition `tells` reads this enum.
#[derive(Clone, Copy)]
pub enum OfferAnswer {
    Nothing,
    Placed(Placed),
    Chosen(u64),
    None,
    Committed,
    Refused(Refusal),
}

// A record read from a run of bytes.
pub type OfferTurn = Turn<Desk, OfferAnswer>;

// What placing answers.
#[tactic(auto, unfolding(crate::specs::Offers::answer_of, placing::specs::Told::answer_of))]
fn answer_of(reply: Result<PlaceReply, Refusal>) -> OfferAnswer
    ensures { tells result ≡ answer_of (answer_to reply) }
{
    match reply {
        Ok(PlaceReply::Placed(p)) => OfferAnswer::Placed(p),
        Ok(PlaceReply::ChosenNone(choosing)) => OfferAnswer::Chosen(choosing),
        Ok(PlaceReply::None) => OfferAnswer::None,
        Err(refusal) => OfferAnswer::Refused(refusal),
    }
}

// Kind 25: places the order in hand, on the slate.
#[tactic(auto, unfolding(crate::specs::Offers::placed_answer, crate::specs::Offers::placing))]
fn place(desk: Desk, slate: &mut [Row], bytes: &[u8], at: usize) -> OfferAnswer
    requires { at + 8 ≤ length bytes.now }
    ensures value { tells result ≡ placed_answer desk slate.old bytes.now at }
    ensures slate_after { slate.new ≡ slate_after (placing_of desk slate.old bytes.now at) slate.old }
    ensures on_slate { shown (tells result) ≤ length slate.new }
{
    let ready = number(bytes, at, 8);
    answer_of(placing::place_activity(desk.board, desk.activity, ready, slate))
}

// Kind 26: commits the first entries of the slate, with the order's category.
#[tactic(auto, unfolding(crate::specs::Offers::commit_does))]
fn commit(desk: Desk, slate: &[Row], bytes: &[u8], at: usize) -> Result<Desk, Refusal>
    requires { at + 20 ≤ length bytes.now }
    ensures { stepped_of desk result ≡ commit_does desk slate.now bytes.now at }
{
    let count = number(bytes, at, 4) as usize;
    let start = number(bytes, at + 4, 8);
    let end = number(bytes, at + 12, 8);
    let category = desk.activity.category;
    let board = committing::commit(desk.board, slate, count, start, end, category)?;
    Ok(Desk { board, ..desk })
}

// A refusal is told in place of the answer, and Unreadable (9) ends the stream.
#[tactic(auto, using(calendar::specs::Laws::Refusals::numbered), unfolding(crate::specs::Offers::told))]
fn told(desk: Desk, stepped: Result<Desk, Refusal>, answer: OfferAnswer, at: usize) -> OfferTurn
    ensures { turn_of result ≡ told_of (stepped_of desk stepped) (tells answer) at }
{
    match stepped {
        Ok(desk) => Turn {
            state: desk,
            reply: answer,
            at,
            more: true,
        },
        Err(refusal) => Turn {
            state: desk,
            reply: OfferAnswer::Refused(refusal),
            at,
            more: refusal != Refusal::Unreadable,
        },
    }
}

// The record that begins at `at`, `len` being the end of the input: nothing where the input ends here, Unreadable for an unknown kind
// or a cut body. (An end beside the slice: the definition `turn_reply` takes it, and the promise is for every end.)
#[tactic(auto, unfolding(crate::specs::Offers::turn_reply, crate::specs::Offers::slate_reply, crate::specs::Offers::record_does, crate::specs::Offers::told, crate::specs::Offers::ends, crate::specs::Offers::shown))]
pub fn record(desk: Desk, slate: &mut [Row], bytes: &[u8], at: usize, len: usize) -> OfferTurn
    requires { (at ≤ len) × (len ≤ length bytes.now) }
    ensures value { (turn_of result ≡ turn_reply desk slate.old bytes.now at len) × (result.at ≤ len) }
    ensures slate_turned { SlateTurned desk slate.old bytes.now at len slate.new (tells result.reply) }
{
    if at == len {
        return last(desk, OfferAnswer::Nothing, at);
    }
    let Ok(kind) = OfferKind::try_from(bytes[at]) else {
        return last(desk, OfferAnswer::Refused(Refusal::Unreadable), at);
    };
    let Some(n) = kind.body_len(bytes, at + 1, len) else {
        return last(desk, OfferAnswer::Refused(Refusal::Unreadable), at);
    };
    let next = at + 1 + n;
    match kind {
        OfferKind::Place => {
            let answer = place(desk, slate, bytes, at + 1);
            Turn {
                state: desk,
                reply: answer,
                at: next,
                more: true,
            }
        }
        OfferKind::Commit => {
            let committed = commit(desk, slate, bytes, at + 1);
            told(desk, committed, OfferAnswer::Committed, next)
        }
        OfferKind::Board(kind) => {
            let stepped = step(desk, kind, bytes, at + 1);
            told(desk, stepped, OfferAnswer::Nothing, next)
        }
    }
}
