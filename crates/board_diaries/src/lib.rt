// The diary of a resource looked up on a board, and put back (models/resource.rs; 01, 'Board entries').
#![tactic(auto)]

ghost use Rattle.std.specs.Prelude.{◌≡◌};
ghost use Rattle.board.specs.Replies.{entered_of, looked_of};
ghost use Rattle.board.specs.Enter.{timeline_of_reply, put_timeline_reply};

use board::Board;
use calendar::Refusal;
use timeline::ResourceTimeline;

// The diary of a resource, or refuses: a board that breaks the rules, a number that is not on it.
pub fn timeline_of(board: Board, number: u8) -> Result<ResourceTimeline, Refusal>
    ensures { looked_of result ≡ timeline_of_reply board number }
{
    let i = board_numbers::entry_for(board, number)?;
    Ok(board.resources[i].timeline)
}

// Puts a diary back to its resource, or refuses: a board or a diary that breaks the rules, a number that is not on the board.
pub fn put_timeline(board: Board, number: u8, timeline: ResourceTimeline) -> Result<Board, Refusal>
    ensures { entered_of board result ≡ put_timeline_reply board number timeline }
{
    if !timeline::is_valid(timeline) {
        return Err(Refusal::Invalid);
    }
    let place = board_numbers::entry_for(board, number)?;
    let mut after = board;
    after.resources[place].timeline = timeline;
    Ok(after)
}
