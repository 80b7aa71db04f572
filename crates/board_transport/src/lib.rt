// The entry of a transport between two resources of a board (models/resource.rs; 01, 'Board entries').
#![tactic(auto)]

ghost use Rattle.std.specs.Prelude.{◌≡◌};
ghost use Rattle.calendar.specs.Replies.{refused};
ghost use Rattle.board.specs.Replies.{entered_of};
ghost use Rattle.board.specs.Enter.{transport_refusal, set_transport_reply};

use board::Board;
use board_numbers::is_on;
use calendar::Refusal;
use calendar::limits::LONGEST_DURATION;

// Refuses a transport: a board that breaks the rules, a number that is not on it, a duration above 2^36.
fn check_transport(b: Board, from: u8, to: u8, ms: u64) -> Result<(), Refusal>
    ensures { refused result ≡ transport_refusal b from to ms }
{
    let p = board_rules::places_of(b).ok_or(Refusal::Invalid)?;
    if !is_on(&p.places, from) || !is_on(&p.places, to) {
        return Err(Refusal::Number);
    }
    if ms > LONGEST_DURATION {
        return Err(Refusal::OutOfRange);
    }
    Ok(())
}

// Sets the transport from one resource to another, or refuses it.
pub fn set_transport(board: Board, from: u8, to: u8, ms: u64) -> Result<Board, Refusal>
    ensures { entered_of board result ≡ set_transport_reply board from to ms }
{
    check_transport(board, from, to, ms)?;
    let mut b = board;
    b.transport[16 * from as usize + to as usize] = ms;
    Ok(b)
}
