// The numbers in a line, in decimal. These functions are inner: they are for the lines above, which
// show that there is room before they put anything: `put_..` requires it, and returns the place after what it put.
ghost use Rattle.std.specs.Prelude.{◌≡◌, ◌+◌, ◌%◌, ◌≤◌, ◌<◌, length};
ghost use Rattle.base_copy.specs.Put.{Put};
ghost use Rattle.replay_text.specs.Words.{digit, decimal_digits, decimal, nine};

use base_copy::put_raw;

// The last digit of a number.
fn last_digit(n: u64) -> u8
    ensures { result ≡ digit (n % 10) }
{
    b'0' + (n % 10) as u8
}

// The last digit stands after all the others, so the others are put first. By hand, as all lines are, and not by `write!`: what std promises
// of `write!` to a lent buffer says nothing of its bytes and lets it refuse, and the clause `line` of `frame_line` promises every byte.
fn put_digits(out: &mut [u8], at: usize, n: u64, k: usize) -> usize
    requires { at + k ≤ length out.old }
    ensures { (Put out.old at (decimal_digits k n) out.new result) × (result ≤ at + k) }
{
    if k == 0 {
        return at;
    }
    if n < 10 {
        out[at] = last_digit(n);
        return at + 1;
    }
    let o = put_digits(out, at, n / 10, k - 1);
    out[o] = last_digit(n);
    o + 1
}

#[tactic(auto, unfolding(crate::specs::Words::decimal))]
pub fn put_decimal(out: &mut [u8], at: usize, n: u64) -> usize
    requires { at + 20 ≤ length out.old }
    ensures { (Put out.old at (decimal n) out.new result) × (result ≤ at + 20) }
{
    put_digits(out, at, n, 20)
}

pub fn put_nine(out: &mut [u8], at: usize, n: u64) -> usize
    requires { at + 9 ≤ length out.old }
    ensures { Put out.old at (nine n) out.new result }
{
    let all = [
        last_digit(n / 100_000_000),
        last_digit(n / 10_000_000),
        last_digit(n / 1_000_000),
        last_digit(n / 100_000),
        last_digit(n / 10_000),
        last_digit(n / 1_000),
        last_digit(n / 100),
        last_digit(n / 10),
        last_digit(n),
    ];
    put_raw(out, at, &all)
}
