// What a record of a stream does to a diary in hand, an order in hand and a board (docs/RECORDS.md, kinds 1 to 4 and 16 to 24).
#![tactic(auto)]

use board::Board;
use calendar::Refusal;
use record_bodies::{BoardKind, Change, Entry, number};
use record_desk::Desk;
use timeline::ResourceTimeline;

mod order;

ghost use Rattle.std.specs.Prelude.{◌≡◌, ◌+◌, ◌≤◌, ◌<◌, length};
ghost use Rattle.board.specs.Replies.{entered_of};
ghost use Rattle.record_bodies.specs.Bodies.{diary_len, fixed_len, len_of};
ghost use Rattle.record_bodies.specs.Kinds.{change_number, entry_number, board_number};
ghost use Rattle.record_board.specs.Records.{signed as signed_of, diary_does, add_does, entry_reply, step_reply};
ghost use Rattle.record_board.specs.Replies.{stepped_of};

// A signed number by its 64 bits.
#[tactic(auto, unfolding(crate::specs::Records::signed))]
fn signed(bits: u64) -> i64
    ensures { result ≡ signed_of bits }
{
    bits.cast_signed()
}

// Kinds 1 to 4: as in `slot`, on the diary in hand. (Never inlined, as the two below: whoever reads a record would have the boards of all
// three in its frame, and set them to 0 for every record.)
#[tactic(auto, using(calendar::specs::Laws::Refusals::numbered), unfolding(crate::specs::Records::diary_does, crate::specs::Records::diary_told, crate::specs::Records::refusal_of, record_diary::specs::Records::books))]
#[inline(never)]
fn on_diary(desk: Desk, change: Change, bytes: &[u8], at: usize) -> Result<Desk, Refusal>
    requires { at + diary_len (change_number change) ≤ length bytes.now }
    ensures { stepped_of desk result ≡ diary_does desk (change_number change) bytes.now at }
{
    let timeline = record_diary::change(desk.timeline, change, bytes, at)?;
    Ok(Desk { timeline, ..desk })
}

// Kind 16: the diary in hand goes to the board, and an empty one is in hand.
#[tactic(auto, using(calendar::specs::Laws::Refusals::numbered), unfolding(crate::specs::Records::add_does, crate::specs::Records::added))]
#[inline(never)]
fn add(desk: Desk, bytes: &[u8], at: usize, count: usize) -> Result<Desk, Refusal>
    requires { at + 11 + count ≤ length bytes.now }
    ensures { stepped_of desk result ≡ add_does desk bytes.now at count }
{
    let skills = number(bytes, at + 2, 8);
    let companions = &bytes[at + 11..at + 11 + count];
    let board = board_resources::add_resource(
        desk.board,
        bytes[at],
        bytes[at + 1],
        skills,
        companions,
        desk.timeline,
    )?;
    let timeline = ResourceTimeline::new(1);
    Ok(Desk {
        timeline,
        board,
        ..desk
    })
}

// Kinds 17 to 20: an entry of the board.
#[tactic(auto, unfolding(crate::specs::Records::entry_reply, record_bodies::specs::Bodies::fixed_len))]
#[inline(never)]
fn entry(board: Board, entry: Entry, bytes: &[u8], at: usize) -> Result<Board, Refusal>
    requires { at + fixed_len (entry_number entry) ≤ length bytes.now }
    ensures { entered_of board result ≡ entry_reply board (entry_number entry) bytes.now at }
{
    match entry {
        Entry::Matrix => {
            let default = signed(number(bytes, at + 1, 8));
            let initial = signed(number(bytes, at + 9, 8));
            board_matrices::set_matrix(board, bytes[at], default, initial)
        }
        Entry::Transition => {
            let ms = signed(number(bytes, at + 3, 8));
            board_matrices::set_transition(board, bytes[at], bytes[at + 1], bytes[at + 2], ms)
        }
        Entry::Initial => {
            let ms = signed(number(bytes, at + 2, 8));
            board_matrices::set_initial(board, bytes[at], bytes[at + 1], ms)
        }
        Entry::Transport => {
            let ms = number(bytes, at + 2, 8);
            board_transport::set_transport(board, bytes[at], bytes[at + 1], ms)
        }
    }
}

// What one record does, its body beginning at `at`. A refused record changes nothing.
#[tactic(auto, unfolding(crate::specs::Records::step_reply, record_bodies::specs::Bodies::len_of, record_bodies::specs::Bodies::fixed_len))]
pub fn step(desk: Desk, kind: BoardKind, bytes: &[u8], at: usize) -> Result<Desk, Refusal>
    requires { at + len_of (board_number kind) bytes.now at ≤ length bytes.now }
    ensures { stepped_of desk result ≡ step_reply desk (board_number kind) bytes.now at }
{
    match kind {
        BoardKind::Change(kind) => on_diary(desk, kind, bytes, at),
        BoardKind::Resource => add(desk, bytes, at, usize::from(bytes[at + 10])),
        BoardKind::Entry(kind) => {
            let board = entry(desk.board, kind, bytes, at)?;
            Ok(Desk { board, ..desk })
        }
        BoardKind::Order => order::new_order(desk, bytes, at),
        BoardKind::Part(kind) => {
            let activity = order::part(desk.activity, kind, bytes, at)?;
            Ok(Desk { activity, ..desk })
        }
    }
}
