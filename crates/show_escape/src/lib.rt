// Recorded bytes as text for people: printable characters alone, and the same text only for the same bytes (specs/Shown.antt).
// `escape` is for hosts and requires nothing. The others are inner: `put_..` requires the room, and returns the place after what it put.
// By hand, and not by std's `escape_ascii` or `write!`: the first shows quotes and the digits of `\xHH` otherwise, and of the second to a
// lent buffer std promises no bytes, which the clause `out` of `escape` does.
#![tactic(auto)]

ghost use Rattle.std.specs.Prelude.{◌≡◌, ◌+◌, ◌≤◌, ◌<◌, [], ◌∷◌, length, leb};
ghost use Rattle.base_copy.specs.Put.{Put};
ghost use Rattle.show_escape.specs.Escape.{backslash, hex_digit, escaped_byte, escaped, escape_answer, escape_out};
ghost use Rattle.show_escape.specs.Forms.{form_text};

// ---- one byte

// How a byte is shown: as it is, as a backslash and a letter, or as a backslash, an `x` and two digits.
#[derive(Clone, Copy)]
enum Form {
    Plain,
    Letter(u8),
    Hex,
}

#[tactic(auto, using(base_laws::proofs::Tests::tests), unfolding(crate::specs::Escape::escaped_byte))]
fn form_of(b: u8) -> Form
    ensures { escaped_byte b ≡ form_text result b }
{
    match b {
        b'\\' => Form::Letter(b'\\'),
        32..=126 => Form::Plain,
        b'\n' => Form::Letter(b'n'),
        b'\r' => Form::Letter(b'r'),
        b'\t' => Form::Letter(b't'),
        _ => Form::Hex,
    }
}

#[tactic(auto, using(base_laws::proofs::Tests::tests))]
fn hex_digit(d: u8) -> u8
    requires { d < 16 }
    ensures { result ≡ hex_digit d }
{
    if d < 10 { b'0' + d } else { b'A' + (d - 10) }
}

fn len_byte(b: u8) -> usize
    ensures { result ≡ length (escaped_byte b) }
{
    match form_of(b) {
        Form::Plain => 1,
        Form::Letter(_) => 2,
        Form::Hex => 4,
    }
}

#[tactic(auto, using(base_copy::proofs::Puts::put_byte))]
fn put_char(out: &mut [u8], at: usize, c: u8) -> usize
    requires { at < length out.old }
    ensures { Put out.old at (c ∷ []) out.new result }
{
    out[at] = c;
    at + 1
}

fn put_letter(out: &mut [u8], at: usize, c: u8) -> usize
    requires { at + 2 ≤ length out.old }
    ensures { Put out.old at (backslash ∷ c ∷ []) out.new result }
{
    let a = put_char(out, at, b'\\');
    put_char(out, a, c)
}

fn put_hex(out: &mut [u8], at: usize, b: u8) -> usize
    requires { at + 4 ≤ length out.old }
    ensures { Put out.old at (form_text Form.Hex b) out.new result }
{
    let high = put_letter(out, at, b'x');
    let low = put_char(out, high, hex_digit(b / 16));
    put_char(out, low, hex_digit(b % 16))
}

fn put_byte(out: &mut [u8], at: usize, b: u8) -> usize
    requires { at + length (escaped_byte b) ≤ length out.old }
    ensures { Put out.old at (escaped_byte b) out.new result }
{
    match form_of(b) {
        Form::Plain => put_char(out, at, b),
        Form::Letter(c) => put_letter(out, at, c),
        Form::Hex => put_hex(out, at, b),
    }
}

// ---- all bytes

// Is the text at most so many characters long. What is left of them is counted down, so no length can overflow.
fn fits_in(bytes: &[u8], most: usize) -> bool
    ensures { result ≡ leb (length (escaped bytes.now)) most }
{
    let mut left = most;
    for b in bytes {
        let n = len_byte(*b);
        if left < n {
            return false;
        }
        left -= n;
    }
    true
}

fn put_text(out: &mut [u8], bytes: &[u8]) -> usize
    requires { length (escaped bytes.now) ≤ length out.old }
    ensures { Put out.old 0 (escaped bytes.now) out.new result }
{
    let mut at = 0;
    for b in bytes {
        at = put_byte(out, at, *b);
    }
    at
}

// The length of the longest text, so that a length fits into 32 bits.
const LONGEST: usize = 4_294_967_295;

// Stores the text of the bytes at the start of the buffer, and returns its length, or None where it has no room: the buffer then stays as it is.
pub fn escape(data: &[u8], out: &mut [u8]) -> Option<usize>
    ensures answer { result ≡ escape_answer «data».now out.old }
    ensures out { out.new ≡ escape_out «data».now out.old }
{
    if fits_in(data, out.len().min(LONGEST)) {
        Some(put_text(out, data))
    } else {
        None
    }
}
