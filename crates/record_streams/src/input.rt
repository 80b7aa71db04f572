// A buffer of input: what is unread stays in order when more is read behind it.
ghost use Rattle.std.specs.Prelude.{◌≡◌, ◌+◌, ◌-◌, ◌≤◌, length, take, drop};
ghost use Rattle.record_streams.specs.Input.{Lies, Supplied};

// The bytes from `at` to `len` of a buffer are unread, and `live` says that more may come. (A flag: there are bytes to read where nothing
// more comes, too.)
#[derive(Clone, Copy)]
pub struct Input {
    pub at: usize,
    pub len: usize,
    pub live: bool,
}

// Reads on behind the first n bytes. Answers how many there are now.
fn read_behind(buf: &mut [u8], n: usize) -> usize
    requires { n ≤ length buf.old }
    ensures lower_bound { (n ≤ result) × (result ≤ length buf.old) }
    ensures buf_unchanged { take n buf.new ≡ take n buf.old }
{
    n + io::read_full(0, &mut buf[n..])
}

// Keeps the bytes from `at` to `len`, at the front, and reads on behind them. Answers how many there are now.
fn refill(buf: &mut [u8; 65536], at: usize, len: usize) -> usize
    requires { (at ≤ len) × (len ≤ 65536) }
    ensures lower_bound { (len - at ≤ result) × (result ≤ 65536) }
    ensures buf_after { take (len - at) buf.new ≡ take (len - at) (drop at buf.old) }
{
    let rest = len - at;
    buf.copy_within(at..len, 0);
    read_behind(buf, rest)
}

// Reads on where less than a longest record is unread: afterwards a longest record is there, or the input has ended.
pub fn supply(s: Input, buf: &mut [u8; 65536], longest: usize) -> Input
    requires { Lies s × (longest ≤ 65536) }
    ensures { Supplied s buf.old longest result buf.new }
{
    if !s.live || s.len - s.at >= longest {
        return s;
    }
    let len = refill(buf, s.at, s.len);
    Input {
        at: 0,
        len,
        live: len == 65536,
    }
}
