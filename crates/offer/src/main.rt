// Places and commits orders on a board, by a stream of records on standard input, and writes the answers (docs/RECORDS.md, kinds 1 to 4
// and 16 to 26). It only reads and writes; what a record does is in `record_offer`, what it prints in `record_offer_text`.
#![tactic(auto)]

use record_desk::Desk;
use record_offer_text::TEXT_MOST;
use record_streams::Input;
use scheduler::rows::BLANK_ROW;

// Nothing says that the input ends, so the turns are counted, up to a number that no run reaches. A record has at most 267 bytes.
fn main() {
    let mut buf = io::large_buffer();
    let mut out = io::large_buffer();
    let mut slate = [BLANK_ROW; 24];
    let mut desk = Desk::new();
    let mut s = Input {
        at: 0,
        len: 0,
        live: true,
    };
    let mut used = 0;
    for _ in 0..u64::MAX {
        s = record_streams::supply(s, &mut buf, 267);
        let turn = record_offer::record(desk, &mut slate, &buf, s.at, s.len);
        desk = turn.state;
        s.at = turn.at;
        used = record_streams::relieve(&out, used, TEXT_MOST);
        used = record_offer_text::text(turn.reply, &slate, &mut out, used);
        if !turn.more {
            break;
        }
    }
    record_streams::relieve(&out, used, 65536);
}
