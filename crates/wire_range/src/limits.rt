// The ranges of document 01's table: of one value, of a time, of an entry and of a message's entries.
ghost use Rattle.std.specs.Prelude.{◌≡◌, length};
ghost use Rattle.wire_fields.specs.Items.{items, last_item};
ghost use Rattle.wire_message.specs.Signed.{int32};
ghost use Rattle.wire_message.specs.Message as m;
ghost use Rattle.wire_message.specs.Places.{time_value};
ghost use Rattle.wire_range.specs.Limits.{up_to, date_fits, moment_fits, is_set, entry_fits, entries_fit};

use wire_fields::{next_part, number_in, part_in};
use wire_message::value_in;
use wire_types::{Span, Time};
use wire_walk_io::time::time_in;

// The greatest values of document 01's table.
pub const NANOS_LIMIT: u64 = 999999999;

const SECONDS_LIMIT: u64 = 4294967295;

pub const EXIT_VALUE_LIMIT: u16 = 255;

pub const WINDOW_LIMIT: u16 = 65535;

pub const SIGNAL_LIMIT: usize = 127;

pub const LOG_ID_LIMIT: usize = 4095;

// A submit_time or an alert_time: the nanoseconds alone have a range. An int32 is its number's low 32 bits.
fn date_fits(t: Time) -> bool
    ensures { result ≡ date_fits (time_value t) }
{
    t.nanos % 4294967296 <= NANOS_LIMIT
}

// A delay, a run_time, a resume_point or a commit_point.
pub fn moment_fits(t: Time) -> bool
    ensures { result ≡ moment_fits (time_value t) }
{
    t.seconds <= SECONDS_LIMIT && date_fits(t)
}

pub fn date_in(s: &[u8], number: u64) -> bool
    ensures { result ≡ date_fits (m.time_field number (items s.now)) }
{
    date_fits(time_in(s, number))
}

pub fn moment_in(s: &[u8], number: u64) -> bool
    ensures { result ≡ moment_fits (m.time_field number (items s.now)) }
{
    moment_fits(time_in(s, number))
}

// Is an int32 field from 0 to `most`.
pub fn number_fits(s: &[u8], number: u64, most: u16) -> bool
    ensures { result ≡ up_to most (int32 (m.number_field number (items s.now))) }
{
    number_in(s, number) % 4294967296 <= most as u64
}

// How many bytes a string field has.
pub fn length_in(s: &[u8], number: u64) -> usize
    ensures { result ≡ length (m.bytes_field number (items s.now)) }
{
    let p = part_in(s, number);
    p.end - p.start
}

#[tactic(auto, using(crate::proofs::Values::is_set_by))]
fn value_is_set(s: &[u8]) -> bool
    ensures { result ≡ is_set (m.value_of (last_item 2 5 (items s.now))) }
{
    value_in(s).is_some()
}

#[tactic(auto, using(base_laws::proofs::Tests::tests), unfolding(crate::specs::Limits::entry_fits, wire_message::specs::Message::entry))]
pub fn entry_fits(s: &[u8]) -> bool
    ensures { result ≡ entry_fits (m.entry (items s.now)) }
{
    1 <= length_in(s, 1) && value_is_set(s)
}

// The entries of a message: its fields of this number.
pub fn entries_fit(s: &[u8], number: u64) -> bool
    ensures { result ≡ entries_fit (m.entries number (items s.now)) }
{
    let mut at: usize = 0;
    while let Some(Span { start, end }) = next_part(s, at, number) {
        if !entry_fits(&s[start..end]) {
            return false;
        }
        at = end;
    }
    true
}
