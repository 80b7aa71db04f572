// A buffer of output: it is written out where the next text might find no room, and at the end. What is written leaves by a call of the
// system, of which no contract can speak.
ghost use Rattle.std.specs.Prelude.{◌≡◌, ◌+◌, ◌≤◌, length};
ghost use Rattle.record_streams.specs.Output.{waiting};

// Writes the first n bytes.
fn write_front(out: &[u8], n: usize)
    requires { n ≤ length out.now }
{
    io::write_all(1, &out[..n]);
}

// Writes the `used` bytes that wait where less than `room` is left behind them; all that wait where the whole buffer is asked for.
// Answers how many wait now: all of them, or none.
#[tactic(auto, unfolding(crate::specs::Output::waiting))]
pub fn relieve(out: &[u8; 65536], used: usize, room: usize) -> usize
    requires { (used ≤ 65536) × (room ≤ 65536) }
    ensures { (result ≡ waiting used room) × (result + room ≤ 65536) }
{
    if 65536 - used < room {
        write_front(out, used);
        return 0;
    }
    used
}
