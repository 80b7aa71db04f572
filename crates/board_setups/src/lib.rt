// Setups by a matrix, and transport (01, 'Durations, setups, transport'; `setup_ms` in models/constraint.rs, `transport_between` in
// models/resource.rs). It is for the crates above: nothing is checked again.
#![tactic(auto)]

ghost use Rattle.std.specs.Prelude.{◌≡◌, true, ◌<◌};
ghost use Rattle.board.specs.Setups.{entry_or, setup_ms};
ghost use Rattle.board.specs.Valid.{last_right};
ghost use Rattle.board.specs.Transport.{greatest_transport};
ghost use Rattle.board.specs.Places.{anywhere};

use board::TransitionMatrix;

// The value of an entry, and another where it is absent.
#[tactic(auto, unfolding(board::specs::Setups::entry_or))]
fn entry_or(ms: i64, other: u64) -> u64
    ensures { result ≡ entry_or ms other }
{
    if ms < 0 { other } else { ms as u64 }
}

// The setup on a resource with this matrix and last category; `own` is the order's.
#[tactic(auto, unfolding(board::specs::Setups::setup_ms, board::specs::Setups::matrix_setup, board::specs::Valid::last_right))]
pub fn setup_ms(m: TransitionMatrix, last: Option<u8>, category: u8, own: u64) -> u64
    requires { (last_right last ≡ true) × (category < 16) }
    ensures { result ≡ setup_ms m last category own }
{
    if !m.present {
        return own;
    }
    let this = category as usize;
    match last {
        None => entry_or(m.initials[this], entry_or(m.initial, 0)),
        Some(before) => {
            let absent = if before == category {
                0
            } else {
                entry_or(m.default, 0)
            };
            entry_or(m.transitions[16 * before as usize + this], absent)
        }
    }
}

// The greatest transport to a number over the numbers come from. Off the board it is 0.
pub fn transport_between(transport: &[u64; 256], origins: u16, to: u8) -> u64
    requires { to < 16 }
    ensures { result ≡ greatest_transport anywhere transport.now origins to 16 }
{
    let mut most = 0;
    for from in 0..16 {
        if (origins >> from) & 1 == 1 {
            most = transport[16 * from + to as usize].max(most);
        }
    }
    most
}
