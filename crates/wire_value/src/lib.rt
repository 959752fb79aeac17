// The values of fields, by wire type.
#![tactic(auto)]

ghost use Rattle.std.specs.Prelude.{◌≡◌, ◌<◌};
ghost use Rattle.wire_types.specs.Refusals.{at_place};
ghost use Rattle.wire_varint.specs.Varint.{varint_at};
ghost use Rattle.wire_value.specs.Field.{fixed_at, number_read, part_of, payload_at};

use wire_types::{Refusal, Refused, Span};
use wire_varint::{Varint, VarintError, varint_at};

// A field's value: a number, a fixed field up to a place, or where its bytes are.
#[derive(Clone, Copy)]
pub enum Payload {
    Number(Varint),
    Fixed { next: usize },
    Part(Span),
}

// Where a fixed field ends, of the field whose tag is at `at`.
fn fixed_at(s: &[u8], at: usize, from: usize, width: usize) -> Result<usize, Refused>
    requires { 0 < width }
    ensures { result ≡ fixed_at s.now at from width }
{
    if from < s.len() && width <= s.len() - from {
        Ok(from + width)
    } else {
        Err(Refused {
            refusal: Refusal::Length,
            place: at,
        })
    }
}

fn at_place(refusal: Refusal, place: usize) -> Refused
    ensures { result ≡ at_place refusal place }
{
    Refused { refusal, place }
}

// A number alone, as packed lists have it.
pub fn number_at(s: &[u8], at: usize) -> Result<Varint, Refused>
    ensures { result ≡ number_read at (varint_at s.now at) }
{
    match varint_at(s, at) {
        Ok(number) => Ok(number),
        Err(VarintError::PastEnd) => Err(at_place(Refusal::Varint, at)),
        Err(VarintError::TooLong) => Err(at_place(Refusal::Varint, at)),
    }
}

// A length and its bytes, where the length takes two bytes or more or is refused: apart from `part_at`, so that its fast path can be
// inlined.
fn part_slow(s: &[u8], at: usize) -> Result<Span, Refused>
    ensures { result ≡ part_of s.now at (varint_at s.now at) }
{
    let Varint { value, next } = number_at(s, at)?;
    let left = (s.len() - next) as u64;
    if value <= left {
        Ok(Span {
            start: next,
            end: next + value as usize,
        })
    } else {
        Err(Refused {
            refusal: Refusal::Length,
            place: at,
        })
    }
}

// A length and its bytes. Nearly all lengths are one byte, which has a fast path.
pub fn part_at(s: &[u8], at: usize) -> Result<Span, Refused>
    ensures { result ≡ part_of s.now at (varint_at s.now at) }
{
    if at < s.len() {
        let length = u64::from(s[at]);
        if length < 128 {
            let start = at + 1;
            let left = (s.len() - start) as u64;
            if length <= left {
                return Ok(Span {
                    start,
                    end: start + length as usize,
                });
            }
        }
    }
    part_slow(s, at)
}

// The value at `from` of the field whose tag is at `at`. Wire types 0 and 2 share the reading of their varint, so that this
// is short enough to be inlined.
pub fn payload_at(s: &[u8], at: usize, from: usize, wire: u8) -> Result<Payload, Refused>
    ensures { result ≡ payload_at s.now at from wire }
{
    if wire == 1 {
        return Ok(Payload::Fixed {
            next: fixed_at(s, at, from, 8)?,
        });
    }
    if wire == 5 {
        return Ok(Payload::Fixed {
            next: fixed_at(s, at, from, 4)?,
        });
    }
    match varint_at(s, from) {
        Ok(Varint { value, next }) => {
            if wire == 0 {
                return Ok(Payload::Number(Varint { value, next }));
            }
            let left = (s.len() - next) as u64;
            if value <= left {
                Ok(Payload::Part(Span {
                    start: next,
                    end: next + value as usize,
                }))
            } else {
                Err(Refused {
                    refusal: Refusal::Length,
                    place: from,
                })
            }
        }
        Err(_) => Err(at_place(Refusal::Varint, from)),
    }
}
