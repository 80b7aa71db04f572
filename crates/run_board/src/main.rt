// Asks durations, setups, transports and servings of what a stream of records on standard input says, and writes the answers. Kinds 1 to 4
// and 16 to 24 are those of `offer`, 40 to 43 its own (tests/beside/README.md): it is run beside the Rust. It only reads and writes; what
// a record does is in `record_board`, what an ask answers in `record_queries`.
#![tactic(auto)]

use record_desk::Desk;
use record_queries::QueryAnswer;
use record_streams::Input;

// A space and a number.
fn value(n: u64) {
    io::write_all(1, b" ");
    io::print_decimal(1, n);
}

// The line that an answer prints.
fn print(answer: QueryAnswer) {
    match answer {
        QueryAnswer::Nothing => {}
        QueryAnswer::Lasts(setup, process, teardown) => {
            io::write_all(1, b"duration");
            value(setup);
            value(process);
            value(teardown);
            io::write_all(1, b"\n");
        }
        QueryAnswer::Setup(ms) => {
            io::write_all(1, b"setup");
            value(ms);
            io::write_all(1, b"\n");
        }
        QueryAnswer::Transport(ms) => {
            io::write_all(1, b"transport");
            value(ms);
            io::write_all(1, b"\n");
        }
        QueryAnswer::Serves => {
            io::write_all(1, b"serves\n");
        }
        QueryAnswer::No => {
            io::write_all(1, b"no\n");
        }
        QueryAnswer::Refused(refusal) => {
            io::write_all(1, b"refused");
            value(u64::from(refusal.number()));
            io::write_all(1, b"\n");
        }
    }
}

// Nothing says that the input ends, so the turns are counted, up to a number that no run reaches.
fn main() {
    let mut buf = io::large_buffer();
    let mut desk = Desk::new();
    let mut s = Input {
        at: 0,
        len: 0,
        live: true,
    };
    for _ in 0..u64::MAX {
        s = record_streams::supply(s, &mut buf, 267);
        let turn = record_queries::record(desk, &buf, s.at, s.len);
        desk = turn.state;
        s.at = turn.at;
        print(turn.reply);
        if !turn.more {
            break;
        }
    }
}
