// The rules of the transport.
ghost use Rattle.std.specs.Prelude.{◌≡◌, ltb};
ghost use Rattle.cells.specs.Every.{every_from};
ghost use Rattle.board.specs.Valid.{transport_cell};
ghost use Rattle.board.specs.Places.{transport_right_by};

use calendar::limits::LONGEST_DURATION;

fn transport_cell(ms: u64, from: usize, to: usize) -> bool
    ensures { result ≡ transport_cell ms (ltb from 16) (ltb to 16) }
{
    ms <= LONGEST_DURATION && (from < 16 && to < 16 || ms == 0)
}

// The transport keeps the rules, `places` being the places of the numbers, 16 for a number that is not on the board.
pub fn transport_right(transport: &[u64; 256], places: &[usize; 16]) -> bool
    ensures { result ≡ every_from (transport_right_by transport.now places.now) 0 256 }
{
    for (k, ms) in transport.iter().enumerate() {
        if !transport_cell(*ms, places[k / 16], places[k % 16]) {
            return false;
        }
    }
    true
}
