// Tags: field number and wire type.
ghost use Rattle.std.specs.Prelude.{◌≡◌};
ghost use Rattle.wire_varint.specs.Varint.{read};
ghost use Rattle.wire_varint.specs.Tag.{tag_fits, tag_of, tag_at};

use crate::{Varint, VarintError, varint_slow};
use wire_types::Refusal;

// The greatest tag.
const TAG_LIMIT: u64 = 4294967295;

// A tag that was read, and the place behind it.
#[derive(Clone, Copy)]
pub struct Tag {
    pub number: u64,
    pub wire: u8,
    pub next: usize,
}

#[tactic(auto, using(base_laws::proofs::Tests::tests), unfolding(crate::specs::Tag::tag_fits))]
fn tag_fits(value: u64) -> bool
    ensures { result ≡ tag_fits value }
{
    match value % 8 {
        0 | 1 | 2 | 5 => value <= TAG_LIMIT && 1 <= value / 8,
        _ => false,
    }
}

pub fn tag_of(value: u64, next: usize) -> Result<Tag, Refusal>
    ensures { result ≡ tag_of (read value next) }
{
    if tag_fits(value) {
        Ok(Tag {
            number: value / 8,
            wire: (value % 8) as u8,
            next,
        })
    } else {
        Err(Refusal::Tag)
    }
}

// A tag of two bytes or more, or none: apart from `tag_at`, so that its fast path can be inlined. It has no use for the fast path of
// `varint_at`, and as a second caller it keeps the compiler from putting `varint_slow` in line there.
fn tag_slow(s: &[u8], at: usize) -> Result<Tag, Refusal>
    ensures { result ≡ tag_at s.now at }
{
    match varint_slow(s, at) {
        Ok(Varint { value, next }) => tag_of(value, next),
        Err(VarintError::PastEnd) => Err(Refusal::Varint),
        Err(VarintError::TooLong) => Err(Refusal::Varint),
    }
}

// The tag at a place. Nearly all tags are one byte, which has a fast path.
pub fn tag_at(s: &[u8], at: usize) -> Result<Tag, Refusal>
    ensures { result ≡ tag_at s.now at }
{
    if at < s.len() {
        let b = u64::from(s[at]);
        if b < 128 {
            return tag_of(b, at + 1);
        }
    }
    tag_slow(s, at)
}
