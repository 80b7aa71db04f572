// Four asks for runs beside the Rust (tests/beside/README.md, kinds 40 to 43): the durations of the order in hand, the setup on a
// resource, the transport to one, and whether one serves a requirement.
#![tactic(auto)]

ghost use Rattle.std.specs.Prelude.{◌≡◌, ◌+◌, ◌≤◌, true, cond, length};
ghost use Rattle.board.specs.Valid.{last_right};
ghost use Rattle.record_board.specs.Replies.{stepped_of};
ghost use Rattle.record_queries.specs.Replies.{Setup, Transport, Serves, No, answer_of, asked_as, turn_of};
ghost use Rattle.record_queries.specs.Asks.{held_at, last_of, setup_reply, transport_reply, serves_reply};
ghost use Rattle.record_queries.specs.Asks.{ask_len, ask_reply, told as told_of, ends, turn_reply};
ghost use Rattle.record_queries.specs.Kinds.{ask_number};

mod kinds;

use activity::ResourceRequirement;
use board::Board;
use calendar::Refusal;
use calendar::limits::LONGEST_DURATION;
use kinds::{Ask, QueryKind};
use record_board::step;
use record_bodies::{Turn, last, number};
use record_desk::Desk;

// What a record answers; `Nothing` prints nothing. It is no Option of an answer: the definition `answer_of` reads this enum.
#[derive(Clone, Copy)]
pub enum QueryAnswer {
    Nothing,
    Lasts(u64, u64, u64),
    Setup(u64),
    Transport(u64),
    Serves,
    No,
    Refused(Refusal),
}

// A category that was last; above 15 for none.
#[tactic(auto, unfolding(crate::specs::Asks::last_of, board::specs::Valid::last_right))]
fn last_of(category: u8) -> Option<u8>
    ensures { (result ≡ last_of category) × (last_right result ≡ true) }
{
    (category <= 15).then_some(category)
}

// The setup of a category behind another on the resource of this number: Invalid (15) the board, Number (5) the number or the category,
// OutOfRange (1) a setup above 2^36.
#[tactic(auto, unfolding(crate::specs::Asks::setup_reply))]
fn setup(board: Board, number: u8, last: u8, category: u8, own: u64) -> Result<u64, Refusal>
    ensures { asked_as Setup result ≡ setup_reply board number last category own }
{
    let i = board_numbers::entry_for(board, number)?;
    if category > 15 {
        return Err(Refusal::Number);
    }
    if own > LONGEST_DURATION {
        return Err(Refusal::OutOfRange);
    }
    let matrix = board.resources[i].matrix;
    Ok(board_setups::setup_ms(matrix, last_of(last), category, own))
}

// The transport to the resource of this number: Invalid the board, Number the number.
#[tactic(auto, unfolding(crate::specs::Asks::transport_reply))]
fn transport(board: Board, origins: u16, to: u8) -> Result<u64, Refusal>
    ensures { asked_as Transport result ≡ transport_reply board origins to }
{
    board_numbers::entry_for(board, to)?;
    Ok(board_setups::transport_between(&board.transport, origins, to))
}

// Whether the resource of this number serves: Invalid the board, Number the number.
#[tactic(auto, unfolding(crate::specs::Asks::serves_reply))]
fn serves(board: Board, requirement: ResourceRequirement, number: u8) -> Result<bool, Refusal>
    ensures { asked_as (λ yes. cond yes Serves No) result ≡ serves_reply board requirement number }
{
    let i = board_numbers::entry_for(board, number)?;
    let r = board.resources[i];
    Ok(activity::basics::serves(requirement, number, r.kind, r.skills))
}

// The eight numbers from `at` on.
fn held_at(bytes: &[u8], at: usize) -> [u8; 8]
    requires { at + 8 ≤ length bytes.now }
    ensures { result ≡ held_at bytes.now at }
{
    let mut held = [0; 8];
    held.copy_from_slice(&bytes[at..at + 8]);
    held
}

// What an ask answers, its body beginning at `at`.
#[tactic(auto, unfolding(crate::specs::Asks::ask_reply, crate::specs::Asks::ask_len, crate::specs::Asks::duration_line, activity::specs::Check::reply_of))]
fn ask(desk: Desk, ask: Ask, bytes: &[u8], at: usize) -> Result<QueryAnswer, Refusal>
    requires { at + ask_len (ask_number ask) ≤ length bytes.now }
    ensures { asked_as answer_of result ≡ ask_reply desk (ask_number ask) bytes.now at }
{
    match ask {
        Ask::Durations => {
            let held = held_at(bytes, at + 1);
            let count = usize::from(bytes[at]);
            let d = activity_durations::duration_on(desk.activity, held, count)?;
            Ok(QueryAnswer::Lasts(d.setup, d.process, d.teardown))
        }
        Ask::Setup => {
            let own = number(bytes, at + 3, 8);
            let ms = setup(desk.board, bytes[at], bytes[at + 1], bytes[at + 2], own)?;
            Ok(QueryAnswer::Setup(ms))
        }
        Ask::Transport => {
            let origins = number(bytes, at, 2) as u16;
            let ms = transport(desk.board, origins, bytes[at + 2])?;
            Ok(QueryAnswer::Transport(ms))
        }
        Ask::Serving => {
            let requirement = ResourceRequirement {
                kind: bytes[at],
                candidates: number(bytes, at + 1, 2) as u16,
                skills: number(bytes, at + 3, 8),
                quantity: 1,
                usage: 1,
            };
            if serves(desk.board, requirement, bytes[at + 11])? {
                Ok(QueryAnswer::Serves)
            } else {
                Ok(QueryAnswer::No)
            }
        }
    }
}

// A record read from a run of bytes.
pub type QueryTurn = Turn<Desk, QueryAnswer>;

// A refusal is told, and Unreadable (9) ends the stream.
#[tactic(auto, using(calendar::specs::Laws::Refusals::numbered), unfolding(crate::specs::Asks::told))]
fn told(desk: Desk, stepped: Result<Desk, Refusal>, at: usize) -> QueryTurn
    ensures { turn_of result ≡ told_of (stepped_of desk stepped) at }
{
    match stepped {
        Ok(desk) => Turn {
            state: desk,
            reply: QueryAnswer::Nothing,
            at,
            more: true,
        },
        Err(refusal) => Turn {
            state: desk,
            reply: QueryAnswer::Refused(refusal),
            at,
            more: refusal != Refusal::Unreadable,
        },
    }
}

// The record that begins at `at`, `len` being the end of the input: nothing where the input ends here, Unreadable for an unknown kind
// or a cut body. (An end beside the slice: the definition `turn_reply` takes it, and the promise is for every end.)
#[tactic(auto, unfolding(crate::specs::Asks::turn_reply, crate::specs::Asks::told, crate::specs::Asks::ends))]
pub fn record(desk: Desk, bytes: &[u8], at: usize, len: usize) -> QueryTurn
    requires { (at ≤ len) × (len ≤ length bytes.now) }
    ensures { (turn_of result ≡ turn_reply desk bytes.now at len) × (result.at ≤ len) }
{
    if at == len {
        return last(desk, QueryAnswer::Nothing, at);
    }
    let Ok(kind) = QueryKind::try_from(bytes[at]) else {
        return last(desk, QueryAnswer::Refused(Refusal::Unreadable), at);
    };
    let Some(n) = kind.body_len(bytes, at + 1, len) else {
        return last(desk, QueryAnswer::Refused(Refusal::Unreadable), at);
    };
    let next = at + 1 + n;
    match kind {
        QueryKind::Board(kind) => told(desk, step(desk, kind, bytes, at + 1), next),
        QueryKind::Ask(kind) => {
            let answer = match ask(desk, kind, bytes, at + 1) {
                Ok(answer) => answer,
                Err(refusal) => QueryAnswer::Refused(refusal),
            };
            Turn {
                state: desk,
                reply: answer,
                at: next,
                more: true,
            }
        }
    }
}
