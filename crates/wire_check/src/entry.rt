// Entries (InfoMessage) in the form in which clients send them: the key with a length of one byte, then one value that ends the entry. This is a
// fast path. What is in another form, damaged entries too, takes the general one.
ghost use Rattle.std.specs.Prelude.{◌≡◌, true, Ok};
ghost use Rattle.wire_schema.specs.Schema.{InfoMessage, StringList};
ghost use Rattle.wire_check_field.specs.Check.{check_of};
ghost use Rattle.wire_check.specs.Entry.{key_end, Formed};

use wire_fields::part_found;
use wire_types::Span;
use wire_value::number_at;
use wire_varint::Varint;

// An entry's key ends at `key`; a value's bytes go from `start` to the end.
#[derive(Clone, Copy)]
pub enum Plain {
    Number { key: usize, value: u64 },
    Text { key: usize, start: usize },
    Texts { key: usize, start: usize },
    Numbers { key: usize, start: usize },
}

// Where the key ends that the entry begins with; none in another form.
#[tactic(auto, using(base_laws::proofs::Tests::tests, crate::proofs::Entries::no_value), unfolding(crate::specs::Entry::key_end))]
fn key_end(s: &[u8]) -> Option<usize>
    ensures { result ≡ key_end s.now }
{
    if s.len() < 2 || s[0] != 10 {
        return None;
    }
    let length = usize::from(s[1]);
    let end = 2 + length;
    if length < 128 && end < s.len() {
        Some(end)
    } else {
        None
    }
}

// The entry's key and the one value that ends it, with what is left to check of a list.
#[tactic(auto, unfolding(crate::specs::Entry::Formed))]
pub fn plain_entry(s: &[u8]) -> Option<Plain>
    ensures { Formed s.now result }
{
    let key = key_end(s)?;
    let tag = s[key];
    if tag == 16 {
        return match number_at(s, key + 1) {
            Ok(Varint { value, next }) => {
                if next == s.len() {
                    Some(Plain::Number { key, value })
                } else {
                    None
                }
            }
            Err(_) => None,
        };
    }
    let Span { start, end } = part_found(s, key + 1)?;
    if end != s.len() {
        return None;
    }
    match tag {
        26 => Some(Plain::Text { key, start }),
        34 => Some(Plain::Texts { key, start }),
        42 => Some(Plain::Numbers { key, start }),
        _ => None,
    }
}

// True only of a list of strings (StringList) whose check is fine: each field is one of its strings. False says nothing.
// The loop goes from string to string, and counts no index.
#[tactic(auto, using(crate::proofs::Entries::unsaid))]
fn plain_strings(s: &[u8]) -> bool
    ensures { result ≡ true → check_of StringList s.now ≡ Ok tt }
{
    let mut at: usize = 0;
    while at < s.len() {
        if s[at] != 10 {
            return false;
        }
        match part_found(s, at + 1) {
            Some(string) => {
                at = string.end;
            }
            None => {
                return false;
            }
        }
    }
    true
}

// True only of an entry whose check is fine. False says nothing: a list of numbers, too, takes the general way.
#[tactic(auto, using(crate::proofs::Entries::unsaid))]
pub fn sound_entry(s: &[u8]) -> bool
    ensures { result ≡ true → check_of InfoMessage s.now ≡ Ok tt }
{
    match plain_entry(s) {
        Some(Plain::Number { key: _, value: _ }) => true,
        Some(Plain::Text { key: _, start: _ }) => true,
        Some(Plain::Texts { key: _, start }) => plain_strings(&s[start..]),
        Some(Plain::Numbers { key: _, start: _ }) => false,
        None => false,
    }
}
