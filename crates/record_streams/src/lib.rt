// Bytes in and out of the programs: a buffer of input that is read on, and a buffer of output that is written where it fills. Text is put
// into the latter by `record_texts`. The paper takes both for granted ('Program slot').
#![tactic(auto)]

mod input;
mod output;

pub use input::{Input, supply};
pub use output::relieve;
