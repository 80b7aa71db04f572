// The number of a resource: whether it is on the board, and the place of the resource that an entry or an ask names (01, 'Board entries':
// 5).
#![tactic(auto)]

ghost use Rattle.std.specs.Prelude.{◌≡◌, ◌&&◌, ◌<◌, IfOk, get_or, leb, ltb};
ghost use Rattle.board_numbers.specs.Entry.{place_for_of, entry_for};

use board::Board;
use calendar::Refusal;

// A number is on the board, by the places of all numbers.
pub fn is_on(places: &[usize; 16], number: u8) -> bool
    ensures { result ≡ leb number 15 && ltb (get_or places.now number 0) 16 }
{
    number <= 15 && places[number as usize] < 16
}

// The place of the resource that an entry names, or refuses: a board that breaks the rules, a number that is not on it.
pub fn entry_for(b: Board, number: u8) -> Result<usize, Refusal>
    ensures entry { place_for_of result ≡ entry_for b number }
    ensures below { IfOk result (λ place. place < 16) }
{
    let p = board_rules::places_of(b).ok_or(Refusal::Invalid)?;
    if !is_on(&p.places, number) {
        return Err(Refusal::Number);
    }
    Ok(p.places[number as usize])
}
