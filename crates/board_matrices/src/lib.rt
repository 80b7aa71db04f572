// Entries of a board's matrices: a resource's matrix, and the entries of a pair of categories or of a first one (models/constraint.rs; 01,
// 'Board entries').
#![tactic(auto)]

ghost use Rattle.std.specs.Prelude.{◌≡◌, ◌≤◌, ◌<◌};
ghost use Rattle.board.specs.Replies.{entered_of};
ghost use Rattle.board.specs.Resources.{resource_at, with_matrix};
ghost use Rattle.board.specs.Enter.{with_resource, new_matrix, matrix_of, with_transition, with_initial};
ghost use Rattle.board.specs.Enter.{set_matrix_reply, set_transition_reply, set_initial_reply};

use board::{Board, TransitionMatrix, duration_right, entry_right};
use board_numbers::entry_for;
use calendar::Refusal;

// A matrix with every entry absent.
fn new_matrix(default: i64, initial: i64) -> TransitionMatrix
    ensures { result ≡ new_matrix default initial }
{
    TransitionMatrix {
        present: true,
        default,
        initial,
        transitions: [-1; 256],
        initials: [-1; 16],
    }
}

#[tactic(auto, unfolding(board::specs::Enter::matrix_of))]
fn matrix_of(m: TransitionMatrix) -> TransitionMatrix
    ensures { result ≡ matrix_of m }
{
    if m.present { m } else { new_matrix(0, 0) }
}

fn with_transition(m: TransitionMatrix, last: u8, this: u8, ms: i64) -> TransitionMatrix
    requires { (last ≤ 15) × (this ≤ 15) }
    ensures { result ≡ with_transition last this ms (matrix_of m) }
{
    let mut r = matrix_of(m);
    r.transitions[16 * last as usize + this as usize] = ms;
    r
}

fn with_initial(m: TransitionMatrix, category: u8, ms: i64) -> TransitionMatrix
    requires { category ≤ 15 }
    ensures { result ≡ with_initial category ms (matrix_of m) }
{
    let mut r = matrix_of(m);
    r.initials[category as usize] = ms;
    r
}

// The board with another matrix on the resource at this place.
fn with_matrix(board: Board, place: usize, m: TransitionMatrix) -> Board
    requires { place < 16 }
    ensures { result ≡ with_resource board place (with_matrix m (resource_at board place)) }
{
    let mut b = board;
    b.resources[place].matrix = m;
    b
}

// Gives a resource a matrix with every entry absent, or refuses: a board that breaks the rules, a number that is not on it, a duration
// outside 0 to 2^36.
pub fn set_matrix(board: Board, number: u8, default: i64, initial: i64) -> Result<Board, Refusal>
    ensures { entered_of board result ≡ set_matrix_reply board number default initial }
{
    let i = entry_for(board, number)?;
    if !duration_right(default) || !duration_right(initial) {
        return Err(Refusal::OutOfRange);
    }
    Ok(with_matrix(board, i, new_matrix(default, initial)))
}

// Sets the entry of a pair of categories, or refuses: a board that breaks the rules, a number that is not on it or a category above 15, an
// entry outside 0 to 2^36 and not -1.
pub fn set_transition(
    board: Board,
    number: u8,
    last: u8,
    this: u8,
    ms: i64,
) -> Result<Board, Refusal>
    ensures { entered_of board result ≡ set_transition_reply board number last this ms }
{
    let i = entry_for(board, number)?;
    if last > 15 || this > 15 {
        return Err(Refusal::Number);
    }
    if !entry_right(ms) {
        return Err(Refusal::OutOfRange);
    }
    let m = with_transition(board.resources[i].matrix, last, this, ms);
    Ok(with_matrix(board, i, m))
}

// Sets the first entry of a category, or refuses as for a pair.
pub fn set_initial(board: Board, number: u8, category: u8, ms: i64) -> Result<Board, Refusal>
    ensures { entered_of board result ≡ set_initial_reply board number category ms }
{
    let i = entry_for(board, number)?;
    if category > 15 {
        return Err(Refusal::Number);
    }
    if !entry_right(ms) {
        return Err(Refusal::OutOfRange);
    }
    let m = with_initial(board.resources[i].matrix, category, ms);
    Ok(with_matrix(board, i, m))
}
