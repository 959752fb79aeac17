// A message's fields, one after the other, and the last of some numbers among them.
#![tactic(auto)]

ghost use Rattle.std.specs.Prelude.{◌≡◌, ◌-◌};
ghost use Rattle.wire_varint.specs.Varint.{varint_at};
ghost use Rattle.wire_value.specs.Field.{part_of};
ghost use Rattle.wire_fields.specs.Fields.{next_of, field_at, fields_at, last_in, number_in, span_in, first_of};
ghost use Rattle.wire_fields.specs.Lengths.{found_of};

use wire_types::Span;
use wire_value::{Payload, part_at, payload_at};
use wire_varint::Varint;
use wire_varint::tag::{Tag, tag_at};

#[derive(Clone, Copy)]
pub enum Field {
    Number {
        number: u64,
        value: u64,
        next: usize,
    },
    Fixed {
        number: u64,
        next: usize,
    },
    Part {
        number: u64,
        start: usize,
        end: usize,
    },
}

impl Field {
    // The place behind a field.
    pub fn next(self) -> usize
        ensures { result ≡ next_of self }
    {
        match self {
            Field::Number { next, .. } => next,
            Field::Fixed { next, .. } => next,
            Field::Part { end, .. } => end,
        }
    }
}

// The field at a place, where one can be read there.
#[tactic(auto, unfolding(crate::specs::Fields::field_at, crate::specs::Fields::field_from, crate::specs::Fields::field_of, crate::specs::Fields::field_with))]
pub fn field_at(s: &[u8], at: usize) -> Option<Field>
    ensures { result ≡ field_at s.now at }
{
    let Ok(
        Tag {
            number,
            wire,
            next: from,
        },
    ) = tag_at(s, at)
    else {
        return None;
    };
    match payload_at(s, at, from, wire) {
        Ok(Payload::Number(Varint { value, next })) => Some(Field::Number {
            number,
            value,
            next,
        }),
        Ok(Payload::Fixed { next }) => Some(Field::Fixed { number, next }),
        Ok(Payload::Part(Span { start, end })) => Some(Field::Part { number, start, end }),
        Err(_) => None,
    }
}

// The last field of some numbers.
#[derive(Clone, Copy)]
pub enum Last {
    Number {
        number: u64,
        value: u64,
    },
    Part {
        number: u64,
        start: usize,
        end: usize,
    },
}

#[tactic(auto, using(base_laws::proofs::Tests::tests), unfolding(crate::specs::Fields::among))]
fn among(lo: u64, hi: u64, number: u64) -> bool
    ensures { result ≡ Rattle.wire_fields.specs.Fields.among lo hi number }
{
    lo <= number && number <= hi
}

#[tactic(auto, unfolding(crate::specs::Fields::later))]
fn later(lo: u64, hi: u64, l: Option<Last>, e: Field) -> Option<Last>
    ensures { result ≡ Rattle.wire_fields.specs.Fields.later lo hi l e }
{
    match e {
        Field::Number { number, value, .. } => {
            if among(lo, hi, number) {
                return Some(Last::Number { number, value });
            }
            l
        }
        Field::Fixed { .. } => l,
        Field::Part { number, start, end } => {
            if among(lo, hi, number) {
                return Some(Last::Part { number, start, end });
            }
            l
        }
    }
}

// The last field of a message whose number is from lo to hi. The loop goes from field to field, and counts no index. A fixed field has an arm
// of its own: it is never the last one, and the other two keep their end in one place, so that no turn has to choose between two.
pub fn last_in(s: &[u8], lo: u64, hi: u64) -> Option<Last>
    ensures { result ≡ last_in lo hi s.now }
{
    let mut found = None;
    let mut at: usize = 0;
    while at < s.len() {
        let Some(e) = field_at(s, at) else {
            return found;
        };
        match e {
            Field::Fixed { next, .. } => at = next,
            Field::Number { .. } | Field::Part { .. } => {
                found = later(lo, hi, found, e);
                at = e.next();
            }
        }
    }
    found
}

#[tactic(auto, unfolding(crate::specs::Fields::number_from))]
pub fn number_in(s: &[u8], number: u64) -> u64
    ensures { result ≡ number_in number s.now }
{
    match last_in(s, number, number) {
        None => 0,
        Some(Last::Number { value, .. }) => value,
        Some(Last::Part { .. }) => 0,
    }
}

// The bytes of the last field of a number; 0 to 0 where there is none.
#[tactic(auto, unfolding(crate::specs::Fields::start_from, crate::specs::Fields::end_from))]
pub fn part_in(s: &[u8], number: u64) -> Span
    ensures { result ≡ span_in number s.now }
{
    match last_in(s, number, number) {
        None => Span { start: 0, end: 0 },
        Some(Last::Number { .. }) => Span { start: 0, end: 0 },
        Some(Last::Part { start, end, .. }) => Span { start, end },
    }
}

// A length and its bytes, where they are there.
#[tactic(auto, unfolding(crate::specs::Lengths::found_of))]
pub fn part_found(s: &[u8], at: usize) -> Option<Span>
    ensures { result ≡ found_of (part_of s.now at (varint_at s.now at)) }
{
    part_at(s, at).ok()
}

// The first field of a number, from a place on, that has bytes: the elements of a list one after the other.
pub fn next_part(s: &[u8], from: usize, number: u64) -> Option<Span>
    ensures { result ≡ first_of number (fields_at s.now from) }
{
    let mut at = from;
    while at < s.len() {
        match field_at(s, at)? {
            Field::Number { next, .. } => at = next,
            Field::Fixed { next, .. } => at = next,
            Field::Part {
                number: found,
                start,
                end,
            } => {
                if found == number {
                    return Some(Span { start, end });
                }
                at = end;
            }
        }
    }
    None
}

// The length between two places, 0 where the second is not past the first.
pub fn between(start: usize, end: usize) -> u64
    ensures { result ≡ end - start }
{
    end.saturating_sub(start) as u64
}
