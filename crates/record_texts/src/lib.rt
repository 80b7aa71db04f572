// Text put into a buffer from an index on, one piece behind the other. Each function answers where it ends, and leaves the rest of the
// buffer as it was. The paper takes this for granted ('Program slot'). The place goes as `(out, at)`: the definition `Put` speaks of the
// whole buffer and a place in it.
#![tactic(auto)]

ghost use Rattle.std.specs.Prelude.{◌∷◌, ◌+◌, ◌≤◌, length};
ghost use Rattle.record_texts.specs.Text.{Put, decimal};

// Puts all bytes of src.
pub fn put(out: &mut [u8], at: usize, src: &[u8]) -> usize
    requires { at + length src.now ≤ length out.old }
    ensures { Put out.old at src.now out.new result }
{
    let end = at + src.len();
    out[at..end].copy_from_slice(src);
    end
}

// Puts a number's decimal digits, at most 20.
pub fn put_number(out: &mut [u8], at: usize, n: u64) -> usize
    requires { at + 20 ≤ length out.old }
    ensures put { Put out.old at (decimal n) out.new result }
    ensures upper_bound { result ≤ at + 20 }
{
    let mut digits = [0u8; 20];
    let k = io::decimal(n, &mut digits);
    put(out, at, &digits[..k])
}

// Puts a space and a number.
pub fn put_value(out: &mut [u8], at: usize, n: u64) -> usize
    requires { at + 21 ≤ length out.old }
    ensures put { Put out.old at (32 ∷ decimal n) out.new result }
    ensures upper_bound { result ≤ at + 21 }
{
    let a = put(out, at, b" ");
    put_number(out, a, n)
}
