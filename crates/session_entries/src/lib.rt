// The required entries of an accept or a reject.
#![tactic(auto)]

ghost use Rattle.std.specs.Prelude.{◌≡◌, ℕ};
ghost use Rattle.wire_fields.specs.Items.{items};
ghost use Rattle.wire_message.specs.Message as m;
ghost use Rattle.session_entries.specs.Required.{same_bytes, key_bytes, last_value, string_or_none, types_fit, missing, entries_refusal, named_key};
ghost use Rattle.session_entries.specs.Answer.{number, key};

use wire_fields::{next_part, part_in};
use wire_message::{Value, value_in};
use wire_types::Span;

#[tactic(auto, using(crate::proofs::Laws::same_is))]
pub fn same(a: &[u8], b: &[u8]) -> bool
    ensures { result ≡ same_bytes a.now b.now }
{
    a == b
}

// Is it the required key of this number.
#[tactic(auto, unfolding(crate::specs::Required::key_bytes))]
fn is_key(a: &[u8], k: u8) -> bool
    ensures { result ≡ same_bytes a.now (key_bytes k) }
{
    match k {
        0 => same(a, b"command"),
        1 => same(a, b"runuser"),
        2 => same(a, b"submithost"),
        _ => same(a, b"submituser"),
    }
}

// Has an entry that key.
fn has_key(s: &[u8], k: u8) -> bool
    ensures { result ≡ same_bytes (m.entry (items s.now)).key (key_bytes k) }
{
    let Span { start, end } = part_in(s, 1);
    is_key(&s[start..end], k)
}

// Is an entry's value of no other type than a string.
fn has_string(s: &[u8]) -> bool
    ensures { result ≡ string_or_none (m.entry (items s.now)).value }
{
    match value_in(s) {
        None => true,
        Some(Value::Number(_)) => false,
        Some(Value::String(_)) => true,
        Some(Value::Strings(_)) => false,
        Some(Value::Numbers(_)) => false,
    }
}

// Is the last entry of a key, if there is one, a string. The entries are the message's fields of this number.
fn key_fits(s: &[u8], field: u64, k: u8) -> bool
    ensures { result ≡ string_or_none (last_value k (m.entries field (items s.now))) }
{
    let mut fits = true;
    let mut at: usize = 0;
    while let Some(Span { start, end }) = next_part(s, at, field) {
        if has_key(&s[start..end], k) {
            fits = has_string(&s[start..end]);
        }
        at = end;
    }
    fits
}

fn types_fit(s: &[u8], field: u64) -> bool
    ensures { result ≡ types_fit (m.entries field (items s.now)) }
{
    for k in 0..4 {
        if !key_fits(s, field, k) {
            return false;
        }
    }
    true
}

// The first required key that no entry has, 4 for none. Document 01 names this form: an outer loop over the keys, an inner one over the
// entries, left by label with the key's number. So the keys are counted by hand, and a number it is.
fn missing_key(s: &[u8], field: u64) -> u8
    ensures { result ≡ missing (m.entries field (items s.now)) }
{
    let mut k: u8 = 0;
    'keys: while k < 4 {
        let mut at: usize = 0;
        loop {
            let Some(Span { start, end }) = next_part(s, at, field) else {
                break 'keys;
            };
            if has_key(&s[start..end], k) {
                break;
            }
            at = end;
        }
        k += 1;
    }
    k
}

// Why a message's required entries are refused.
#[derive(Clone, Copy, Debug, PartialEq, Eq)]
pub enum EntryError {
    // 7: a required key whose last entry is no string
    NotAString,
    // 8: a required key, 0 to 3, that no entry has
    Missing(u8),
}

// 7 for a required key whose last entry is no string, then 8 for a required key that no entry has.
pub fn entries_refusal(s: &[u8], field: u64) -> Result<(), EntryError>
    ensures refusal { number result ≡ entries_refusal (m.entries field (items s.now)) }
    ensures key { key result ≡ named_key (m.entries field (items s.now)) }
{
    if !types_fit(s, field) {
        return Err(EntryError::NotAString);
    }
    let k = missing_key(s, field);
    if k == 4 {
        return Ok(());
    }
    Err(EntryError::Missing(k))
}
