// An accept in the form in which clients send it, looked at in one pass: each tag is one byte, each entry a key and one value, each
// required entry a string. This is a fast path. An accept in another form, one that is to be refused too, takes the general one.
#![tactic(auto)]

ghost use Rattle.std.specs.Prelude.{◌≡◌, ◌≤◌, length};
ghost use Rattle.base_laws.specs.Base.{part};
ghost use Rattle.wire_fields.specs.Items.{items};
ghost use Rattle.wire_message.specs.Message as m;
ghost use Rattle.wire_range.specs.Limits.{date_fits, is_set};
ghost use Rattle.session_fast_accept.specs.Summary.{key_number, with_key, all_met, is_string, EntrySeen, KeySeen, Summarised};

use wire_check::entry::{Plain, plain_entry};
use wire_fields::part_found;
use wire_message::time_spec_in;
use wire_range::limits::NANOS_LIMIT;
use wire_types::Span;
use wire_value::number_at;
use wire_varint::Varint;

// The required keys that entries had so far.
#[derive(Clone, Copy, Default)]
pub struct Keys {
    pub command: bool,
    pub runuser: bool,
    pub submithost: bool,
    pub submituser: bool,
}

impl Keys {
    // The keys with that of number k met; 4 adds none. Each flag is computed without a branch.
    fn with_key(self, k: u8) -> Keys
        ensures { result ≡ with_key self k }
    {
        Keys {
            command: self.command | (k == 0),
            runuser: self.runuser | (k == 1),
            submithost: self.submithost | (k == 2),
            submituser: self.submituser | (k == 3),
        }
    }

    // Are all four met.
    #[tactic(auto, unfolding(crate::specs::Summary::all_met))]
    fn all_met(self) -> bool
        ensures { result ≡ all_met self }
    {
        self.command && self.runuser && self.submithost && self.submituser
    }
}

// The number of a required key, 0 to 3; 4 for another. The length goes first: it rules out nearly all other keys.
// Then `starts_with`: == of two slices takes a call for each key whose first four bytes fit, and a whole accept 4 % longer.
// Numbers, and no enum: `key_bytes` and refusal 8 number the keys so. 4 for another, and no Option: what an entry shows is an Option of
// it, and one of an Option would be no plainer.
fn key_number(a: &[u8]) -> u8
    ensures { result ≡ key_number a.now }
{
    if a.len() == 7 {
        if a.starts_with(b"command") {
            return 0;
        }
        if a.starts_with(b"runuser") {
            return 1;
        }
    } else if a.len() == 10 {
        if a.starts_with(b"submithost") {
            return 2;
        }
        if a.starts_with(b"submituser") {
            return 3;
        }
    }
    4
}

// What an entry's key, which ends at `key`, shows where the value is a string.
#[tactic(auto, unfolding(crate::specs::Summary::KeySeen, crate::specs::Summary::EntrySeen))]
fn string_seen(s: &[u8], key: usize) -> Option<u8>
    requires { key ≤ length s.now }
    ensures { KeySeen is_string (part s.now 2 key) result }
{
    if 2 < key {
        Some(key_number(&s[2..key]))
    } else {
        None
    }
}

// What it shows where the value is of any type: an entry with a required key is left to the general way.
#[tactic(auto, unfolding(crate::specs::Summary::KeySeen, crate::specs::Summary::EntrySeen))]
fn other_seen(s: &[u8], key: usize) -> Option<u8>
    requires { key ≤ length s.now }
    ensures { KeySeen is_set (part s.now 2 key) result }
{
    if 2 < key && key_number(&s[2..key]) == 4 {
        Some(4)
    } else {
        None
    }
}

// What an entry shows: the number of its key where it is in range, and a string where its key is a required one; nothing is said of another.
// It is a number and not the keys met so far, so that those stay where they are while an entry is looked at.
#[tactic(auto, unfolding(crate::specs::Summary::EntrySeen))]
fn entry_seen(s: &[u8]) -> Option<u8>
    ensures { EntrySeen (m.entry (items s.now)) result }
{
    match plain_entry(s)? {
        Plain::Number { key, .. } => other_seen(s, key),
        Plain::Text { key, .. } => string_seen(s, key),
        Plain::Texts { key, .. } => other_seen(s, key),
        Plain::Numbers { key, .. } => other_seen(s, key),
    }
}

// Is a submit_time in range: the nanoseconds alone have one. An int32 is its number's low 32 bits.
fn date_seen(s: &[u8]) -> bool
    ensures { result ≡ date_fits (m.time_spec (items s.now)) }
{
    time_spec_in(s).nanos % 4294967296 <= NANOS_LIMIT
}

// What one pass over an accept in the form that clients send shows: the expect_iobufs of an accept whose values are in range and whose
// required entries are there. None says nothing.
#[tactic(auto, unfolding(crate::specs::Summary::Summarised))]
pub fn summary_in(s: &[u8]) -> Option<bool>
    ensures { Summarised s.now result }
{
    let mut at: usize = 0;
    let mut expect = false;
    let mut keys = Keys::default();
    while at < s.len() {
        let tag = s[at];
        if tag == 24 {
            let Ok(Varint { value, next }) = number_at(s, at + 1) else {
                return None;
            };
            expect = value != 0;
            at = next;
        } else {
            let Span { start, end } = part_found(s, at + 1)?;
            if tag == 18 {
                let k = entry_seen(&s[start..end])?;
                keys = keys.with_key(k);
                at = end;
            } else if tag == 10 && date_seen(&s[start..end]) {
                at = end;
            } else {
                return None;
            }
        }
    }
    if keys.all_met() { Some(expect) } else { None }
}
