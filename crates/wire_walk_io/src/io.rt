// IoBuffer.
ghost use Rattle.std.specs.Prelude.{◌≡◌};
ghost use Rattle.wire_walk_io.specs.Places.{io_buffer_of};

use crate::time::time_spec;
use wire_check_field::{Step, rest_at};
use wire_schema::IO_BUFFER;
use wire_types::{Refused, Span, Time, Timed};
use wire_value::{number_at, part_at};
use wire_varint::Varint;

// The check of an I/O buffer, its delay and where its data is in one walk; or its refusal with the place. The walk is like that of
// `time_spec`, and apart from it: all that they share is the reading of a tag and of a field of another number, and a walk that takes the
// rest as closures is no plainer.
pub fn io_buffer(s: &[u8]) -> Result<Timed, Refused>
    ensures { result ≡ io_buffer_of s.now }
{
    let mut at: usize = 0;
    let mut delay = Time {
        seconds: 0,
        nanos: 0,
    };
    let mut contents = Span { start: 0, end: 0 };
    while at < s.len() {
        let Varint { value: tag, next } = number_at(s, at)?;
        if tag == 10 {
            let Span { start, end } = part_at(s, next)?;
            match time_spec(&s[start..end]) {
                Ok(time) => {
                    delay = time;
                    at = end;
                }
                Err(refused) => return Err(refused.within(start)),
            }
        } else if tag == 18 {
            contents = part_at(s, next)?;
            at = contents.end;
        } else {
            match rest_at(IO_BUFFER, s, at, tag, next)? {
                Step::Next { next: after } => at = after,
                Step::Inside { end, .. } => at = end,
            }
        }
    }
    Ok(Timed { delay, contents })
}
