// Text into a lent run of bytes. What lies past its end is not written; the answer says where the
// text ends, or would.

#![tactic(auto)]

ghost use Rattle.std.specs.Prelude.{[], ◌∷◌, ◌+◌, ◌^◌, ◌<◌, ◌≤◌, length};
ghost use Rattle.text.specs.Text.{decimal, Put};

// One byte at a place.
pub fn put_byte(text: &mut [u8], at: usize, b: u8) -> usize
    requires { at + 1 < 2 ^ 64 }
    ensures { Put (b ∷ []) at text.old result text.new }
{
    if at < text.len() {
        text[at] = b;
    }
    at + 1
}

// A run of bytes.
pub fn put_run(text: &mut [u8], at: usize, run: &[u8]) -> usize
    requires { at + length run.now < 2 ^ 64 }
    ensures { Put run.now at text.old result text.new }
{
    let mut to = at;
    for b in run {
        to = put_byte(text, to, *b);
    }
    to
}

// A number in decimal digits.
pub fn put_number(text: &mut [u8], at: usize, n: u64) -> usize
    requires { at + 20 < 2 ^ 64 }
    ensures put { Put (decimal n) at text.old result text.new }
    ensures upper_bound { result ≤ at + 20 }
{
    let mut digits = [0; 20];
    let k = io::decimal(n, &mut digits);
    put_run(text, at, &digits[..k])
}
