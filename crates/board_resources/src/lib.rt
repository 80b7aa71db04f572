// A resource entered on a board (models/resource.rs; 01, 'Board entries'). Entries of a matrix are made by `board_matrices`, those of the
// transport by `board_transport`; diaries are looked up and put back by `board_diaries`.
#![tactic(auto)]

ghost use Rattle.std.specs.Prelude.{◌≡◌, ◌≤◌, length, leb};
ghost use Rattle.cells.specs.Every.{every};
ghost use Rattle.calendar.specs.Replies.{refused};
ghost use Rattle.board.specs.Replies.{entered_of};
ghost use Rattle.board.specs.Resources.{companion_cells};
ghost use Rattle.board.specs.Enter.{add_refusal, add_resource_reply};

use board::{Board, Resource};
use board_numbers::is_on;
use calendar::Refusal;
use timeline::ResourceTimeline;

// Every companion's number is at most 15, however many there are.
fn numbers_right(companions: &[u8]) -> bool
    ensures { result ≡ every (λ companion. leb companion 15) companions.now }
{
    companions.iter().all(|companion| *companion <= 15)
}

fn companion_cells(companions: &[u8]) -> [u8; 4]
    requires { length companions.now ≤ 4 }
    ensures { result ≡ companion_cells companions.now }
{
    let mut cells = [0; 4];
    cells[..companions.len()].copy_from_slice(companions);
    cells
}

// Refuses a new resource: a board or a diary that breaks the rules, a number or a companion's above 15, and as full a number that the
// board already has, or more than four companions.
fn check_add(
    b: Board,
    number: u8,
    companions: &[u8],
    timeline: ResourceTimeline,
) -> Result<(), Refusal>
    ensures { refused result ≡ add_refusal b number companions.now timeline }
{
    let p = board_rules::places_of(b).ok_or(Refusal::Invalid)?;
    if !timeline::is_valid(timeline) {
        return Err(Refusal::Invalid);
    }
    if number > 15 || !numbers_right(companions) {
        return Err(Refusal::Number);
    }
    if is_on(&p.places, number) || companions.len() > 4 {
        return Err(Refusal::Full);
    }
    Ok(())
}

// Adds a resource behind the others, or refuses it.
pub fn add_resource(
    board: Board,
    number: u8,
    kind: u8,
    skills: u64,
    companions: &[u8],
    timeline: ResourceTimeline,
) -> Result<Board, Refusal>
    ensures { entered_of board result ≡ add_resource_reply board number kind skills companions.now timeline }
{
    check_add(board, number, companions, timeline)?;
    let mut b = board;
    b.resources[board.len] = Resource {
        number,
        kind,
        skills,
        companions: companion_cells(companions),
        count: companions.len(),
        timeline,
        ..board::blank_resource()
    };
    b.len += 1;
    Ok(b)
}
