// Whether a board keeps the rules, and the place of each number on it, in one pass over the board (01, 'Placing', the board's paragraph,
// and 'Replies': 15).
#![tactic(auto)]

use board::Board;

mod rules;

ghost use Rattle.std.specs.Prelude.{◌≡◌, true, false, MatchOption};
ghost use Rattle.board.specs.Valid.{valid};
ghost use Rattle.board.specs.Places.{Known, Lengths, FewBookings};

// What is read off a board that keeps the rules: the place of each number on it, 16 for a number that is not there, and how many bookings
// the diary at each place has. (16, and no Option: the definitions speak of the places as numbers.)
#[derive(Clone, Copy)]
pub struct Places {
    pub places: [usize; 16],
    pub lens: [u64; 16],
    ghost few_bookings: { FewBookings lens },
}

// The places, where the board keeps the rules.
pub fn places_of(b: Board) -> Option<Places>
    ensures { MatchOption result (valid b ≡ false) (λ p. (valid b ≡ true) × Known b p.places × Lengths b p.lens) }
{
    if b.len > 16 {
        return None;
    }
    let mut places = [16; 16];
    let mut lens = [0; 16];
    for (i, r) in b.resources.iter().enumerate() {
        let there = i < b.len;
        if !board_cell_rules::cell_right(*r, there) {
            return None;
        }
        if there {
            let number = r.number as usize;
            if places[number] < 16 {
                return None;
            }
            places[number] = i;
        }
        lens[i] = r.timeline.len as u64;
    }
    if rules::transport_right(&b.transport, &places) {
        Some(Places { places, lens })
    } else {
        None
    }
}

// The board keeps the rules.
pub fn is_valid(b: Board) -> bool
    ensures { result ≡ valid b }
{
    places_of(b).is_some()
}
