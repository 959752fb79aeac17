// The elements of a message's lists, one after the other. The bytes of a field come by `next_part` of `wire_fields`, whose answers
// proofs/Elements ties to the list of all of them; the numbers of a NumberList come by `next_number`.
#![tactic(auto)]

ghost use Rattle.std.specs.Prelude.{◌≡◌, take, ltb, eqb, Err};
ghost use Rattle.base_laws.specs.Base.{pick};
ghost use Rattle.wire_varint.specs.Varint.{varint_at};
ghost use Rattle.wire_varint.specs.declared.VarintError.TheVariants.{PastEnd};
ghost use Rattle.wire_fields.specs.Fields.{fields_at};
ghost use Rattle.wire_elements.specs.Elements.{first_number, next_number};

use wire_fields::{Field, field_at};
use wire_varint::{Varint, VarintError, varint_at};

// A number of a NumberList with the cursor past it: a place, and the end of the packed numbers that it is in.
#[derive(Clone, Copy)]
pub struct Element {
    pub value: u64,
    pub at: usize,
    pub end: usize,
}

// The varint at a place of a packed part that ends at `end`.
fn packed_at(s: &[u8], at: usize, end: usize) -> Result<Varint, VarintError>
    ensures { result ≡ varint_at (take end s.now) at }
{
    if end < s.len() {
        return varint_at(&s[..end], at);
    }
    varint_at(s, at)
}

// The first varint of a field's bytes where the field is the list's.
#[tactic(auto, using(base_laws::proofs::Tests::tests))]
fn packed_in(s: &[u8], number: u64, start: usize, end: usize) -> Result<Varint, VarintError>
    ensures { result ≡ pick (eqb number 1) (varint_at (take end s.now) start) (Err PastEnd) }
{
    if number == 1 {
        return packed_at(s, start, end);
    }
    Err(VarintError::PastEnd)
}

// The first number of the fields from a place on. The loop goes from field to field, and counts no index.
fn number_from(s: &[u8], from: usize) -> Option<Element>
    ensures { result ≡ first_number s.now (fields_at s.now from) }
{
    let mut at = from;
    while at < s.len() {
        match field_at(s, at)? {
            Field::Number {
                number,
                value,
                next,
            } => {
                if number == 1 {
                    return Some(Element {
                        value,
                        at: next,
                        end: next,
                    });
                }
                at = next;
            }
            Field::Fixed { number: _, next } => {
                at = next;
            }
            Field::Part { number, start, end } => match packed_in(s, number, start, end) {
                Ok(Varint { value, next }) => {
                    return Some(Element {
                        value,
                        at: next,
                        end,
                    });
                }
                Err(_) => {
                    at = end;
                }
            },
        }
    }
    None
}

// Where the fields go on: past the packed part that the cursor is in.
#[tactic(auto, using(base_laws::proofs::Tests::tests))]
fn resumed(at: usize, end: usize) -> usize
    ensures { result ≡ pick (ltb at end) end at }
{
    at.max(end)
}

// The next number at a cursor. A list is read from the cursor 0, 0 on.
#[tactic(auto, unfolding(crate::specs::Elements::next_number, crate::specs::Elements::first_in))]
pub fn next_number(s: &[u8], at: usize, end: usize) -> Option<Element>
    ensures { result ≡ next_number s.now at end }
{
    match packed_at(s, at, end) {
        Ok(Varint { value, next }) => Some(Element {
            value,
            at: next,
            end,
        }),
        Err(_) => number_from(s, resumed(at, end)),
    }
}
