// Varints.
#![tactic(auto)]

pub mod tag;

ghost use Rattle.std.specs.Prelude.{◌≡◌};
ghost use Rattle.wire_varint.specs.Varint.{varint_at};

// A varint that was read: its value, and the place behind it.
#[derive(Clone, Copy)]
pub struct Varint {
    pub value: u64,
    pub next: usize,
}

// Why there is no varint at a place.
#[derive(Clone, Copy, Debug, PartialEq, Eq)]
pub enum VarintError {
    PastEnd,
    TooLong,
}

// The varint at a place, byte by byte: the value so far, what the next byte counts, and how many bytes may follow it. Apart from
// `varint_at`, so that its fast path can be inlined. Its `while` is kept: a `for` over the bytes would not stop at the tenth with less code.
fn varint_slow(s: &[u8], from: usize) -> Result<Varint, VarintError>
    ensures { result ≡ varint_at s.now from }
{
    let mut at = from;
    let mut value: u64 = 0;
    let mut scale: u64 = 1;
    let mut more: u8 = 9;
    while at < s.len() {
        let b = u64::from(s[at]);
        if more == 0 {
            if b <= 1 {
                return Ok(Varint {
                    value: value + b * scale,
                    next: at + 1,
                });
            }
            return Err(VarintError::TooLong);
        }
        if b < 128 {
            return Ok(Varint {
                value: value + b * scale,
                next: at + 1,
            });
        }
        value += (b - 128) * scale;
        scale *= 128;
        more -= 1;
        at += 1;
    }
    Err(VarintError::PastEnd)
}

// The same, with room of its own for what `varint_slow` answers: in `varint_at` that room would be cleared before each varint, of one byte too.
fn varint_long(s: &[u8], from: usize) -> Result<Varint, VarintError>
    ensures { result ≡ varint_at s.now from }
{
    let number = varint_slow(s, from)?;
    Ok(number)
}

// The varint at a place. Most are one byte, which has a fast path.
pub fn varint_at(s: &[u8], from: usize) -> Result<Varint, VarintError>
    ensures { result ≡ varint_at s.now from }
{
    if from < s.len() {
        let first = u64::from(s[from]);
        if first < 128 {
            return Ok(Varint {
                value: first,
                next: from + 1,
            });
        }
    }
    varint_long(s, from)
}
