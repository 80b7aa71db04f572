// What a record of a diary's stream prints, and its bytes (01, 'Program slot').
#![tactic(auto)]

mod lines;

use calendar::Refusal;
pub use lines::{put_refused, text};

// What a record prints; `Nothing` prints nothing. An enum of its own: the definition `line_of` reads it.
#[derive(Clone, Copy)]
pub enum Line {
    Nothing,
    Fit(u64, u64),
    None,
    Refused(Refusal),
}
