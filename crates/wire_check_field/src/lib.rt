// The check of one field of any message, by the one schema. What the check of a whole message returns is a `Result<(), Refused>`
// (`wire_check`).
#![tactic(auto)]

ghost use Rattle.std.specs.Prelude.{◌≡◌, Ok};
ghost use Rattle.wire_varint.specs.Varint.{read};
ghost use Rattle.wire_varint.specs.Tag.{tag_of};
ghost use Rattle.wire_check_field.specs.Check.{step_of, step_from, step_at};

use wire_schema::{kind_of, takes};
use wire_types::{Refusal, Refused, Span};
use wire_value::{Payload, number_at, payload_at};
use wire_varint::tag::{Tag, tag_at, tag_of};

// The number of packed numbers, where the others are messages': a list of them has the kind of an embedded message with this number.
const PACKED_NUMBERS: u8 = 16;

// What a field means to the check of its message: the next field, or first the message that it holds. A message is a number and no enum
// here and in `step_at`: the C functions that check a message take any number, and `check_of` ranges over all.
#[derive(Clone, Copy)]
pub enum Step {
    Next {
        next: usize,
    },
    Inside {
        message: u8,
        start: usize,
        end: usize,
    },
}

#[tactic(auto, using(base_laws::proofs::Tests::tests), unfolding(crate::specs::Check::step_of))]
fn step_of(kind: u8, p: Payload) -> Step
    ensures { result ≡ step_of kind p }
{
    match p {
        Payload::Number(number) => Step::Next { next: number.next },
        Payload::Fixed { next } => Step::Next { next },
        Payload::Part(Span { start, end }) => {
            if 16 <= kind {
                Step::Inside {
                    message: kind - 16,
                    start,
                    end,
                }
            } else {
                Step::Next { next: end }
            }
        }
    }
}

// The field at `at`, by its tag. It has two callers, and the check of every message passes through it: so it is to be inlined.
#[inline(always)]
#[tactic(auto, unfolding(crate::specs::Check::step_read, crate::specs::Check::step_from))]
fn tagged_at(message: u8, s: &[u8], at: usize, tag: Tag) -> Result<Step, Refused>
    ensures { result ≡ step_from message s.now at (Ok tag) }
{
    let kind = kind_of(message, tag.number);
    if takes(kind, tag.wire) {
        Ok(step_of(kind, payload_at(s, at, tag.next, tag.wire)?))
    } else {
        Err(Refused {
            refusal: Refusal::WireType,
            place: at,
        })
    }
}

// A field whose tag was read before.
#[tactic(auto, unfolding(crate::specs::Check::step_from))]
pub fn rest_at(message: u8, s: &[u8], at: usize, value: u64, from: usize) -> Result<Step, Refused>
    ensures { result ≡ step_from message s.now at (tag_of (read value from)) }
{
    match tag_of(value, from) {
        Ok(tag) => tagged_at(message, s, at, tag),
        Err(refusal) => Err(Refused { refusal, place: at }),
    }
}

// The field at a place.
#[tactic(auto, using(base_laws::proofs::Tests::tests), unfolding(crate::specs::Check::step_at, crate::specs::Check::step_read, crate::specs::Check::step_from, wire_value::specs::Field::as_number))]
pub fn step_at(message: u8, s: &[u8], at: usize) -> Result<Step, Refused>
    ensures { result ≡ step_at message s.now at }
{
    if message == PACKED_NUMBERS {
        return Ok(step_of(0, Payload::Number(number_at(s, at)?)));
    }
    match tag_at(s, at) {
        Ok(tag) => tagged_at(message, s, at, tag),
        Err(refusal) => Err(Refused { refusal, place: at }),
    }
}
