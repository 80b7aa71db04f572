// The program `slot` (01): reads records from standard input and writes what they print. It only reads and writes; what a record
// does is in `record_diary`.
#![tactic(auto)]

use record_streams::Input;
use timeline::ResourceTimeline;

// Nothing says that the input ends, so the turns are counted, up to a number that no run reaches. A record has at most 21 bytes, a line 46.
fn main() {
    let mut buf = io::large_buffer();
    let mut out = io::large_buffer();
    let mut timeline = ResourceTimeline::new(1);
    let mut s = Input {
        at: 0,
        len: 0,
        live: true,
    };
    let mut used = 0;
    for _ in 0..u64::MAX {
        s = record_streams::supply(s, &mut buf, 21);
        let turn = record_diary::record(timeline, &buf, s.at, s.len);
        timeline = turn.state;
        s.at = turn.at;
        used = record_streams::relieve(&out, used, 46);
        used = record_diary_text::text(turn.reply, &mut out, used);
        if !turn.more {
            break;
        }
    }
    record_streams::relieve(&out, used, 65536);
}
