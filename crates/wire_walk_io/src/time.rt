// TimeSpec.
ghost use Rattle.std.specs.Prelude.{◌≡◌};
ghost use Rattle.wire_walk_io.specs.Places.{time_in, time_spec_of};

use wire_check_field::{Step, rest_at};
use wire_fields::{Last, last_in, number_in};
use wire_schema::TIME_SPEC;
use wire_types::{Refused, Time};
use wire_value::number_at;
use wire_varint::Varint;

// The last TimeSpec given for a field; 0 and 0 where there is none.
#[tactic(auto, unfolding(crate::specs::Places::time_from))]
pub fn time_in(s: &[u8], number: u64) -> Time
    ensures { result ≡ time_in number s.now }
{
    if let Some(Last::Part { start, end, .. }) = last_in(s, number, number) {
        let t = &s[start..end];
        Time {
            seconds: number_in(t, 1),
            nanos: number_in(t, 2),
        }
    } else {
        Time {
            seconds: 0,
            nanos: 0,
        }
    }
}

// The check of a TimeSpec and its numbers in one walk; or its refusal with the place. The loop goes from field to field, and counts no index.
pub fn time_spec(s: &[u8]) -> Result<Time, Refused>
    ensures { result ≡ time_spec_of s.now }
{
    let mut at: usize = 0;
    let mut time = Time {
        seconds: 0,
        nanos: 0,
    };
    while at < s.len() {
        let Varint { value: tag, next } = number_at(s, at)?;
        if tag == 8 {
            let Varint { value, next: after } = number_at(s, next)?;
            time.seconds = value;
            at = after;
        } else if tag == 16 {
            let Varint { value, next: after } = number_at(s, next)?;
            time.nanos = value;
            at = after;
        } else {
            match rest_at(TIME_SPEC, s, at, tag, next)? {
                Step::Next { next: after } => at = after,
                Step::Inside { end, .. } => at = end,
            }
        }
    }
    Ok(time)
}
