// A ClientMessage. I/O buffers have a fast path, for the form in which clients send them: one member that is the whole message, a delay,
// then the data to the end. That is nearly every message of a session. What is in another form, damaged messages too, takes the walk:
// the functions of the fast path then answer `None`.
#![tactic(auto)]

ghost use Rattle.std.specs.Prelude.{◌≡◌, Ok, length};
ghost use Rattle.wire_varint.specs.Varint.{varint_at};
ghost use Rattle.wire_value.specs.Field.{part_of};
ghost use Rattle.wire_walk_client.specs.Client.{client_of};
ghost use Rattle.wire_fast_client.specs.Plain.{byte_is, is_io, HasTag, Ends, TimeSaid, Tailed, IoSaid, IoTag, ClientSaid};

use wire_fields::part_found;
use wire_types::{ClientMember, Refused, Span, Time, Timed};
use wire_varint::{Varint, varint_at};
use wire_walk_client::client_walk;

// Is this the byte at a place: a tag of one byte, where it is below 128.
#[tactic(auto, using(base_laws::proofs::Tests::tests), unfolding(crate::specs::Plain::byte_is))]
fn has_tag(s: &[u8], at: usize, tag: u8) -> bool
    ensures { result ≡ byte_is s.now at tag }
{
    s.get(at) == Some(&tag)
}

// ---- the delay

// The nanoseconds at a place, where they end the TimeSpec.
#[tactic(auto, unfolding(crate::specs::Plain::Ends))]
fn nanos_at(s: &[u8], at: usize) -> Option<u64>
    ensures { Ends s.now at result }
{
    if has_tag(s, at, 16)
        && let Ok(Varint { value, next }) = varint_at(s, at + 1)
        && next == s.len()
    {
        Some(value)
    } else {
        None
    }
}

// A TimeSpec without seconds: a delay of less than one.
#[tactic(auto, unfolding(crate::specs::Plain::TimeSaid))]
fn below_second(s: &[u8]) -> Option<Time>
    ensures { TimeSaid s.now result }
{
    let nanos = nanos_at(s, 0)?;
    Some(Time { seconds: 0, nanos })
}

// A TimeSpec whose seconds come first.
#[tactic(auto, unfolding(crate::specs::Plain::TimeSaid))]
fn from_seconds(s: &[u8]) -> Option<Time>
    ensures { TimeSaid s.now result }
{
    if has_tag(s, 0, 8) {
        let Ok(
            Varint {
                value: seconds,
                next,
            },
        ) = varint_at(s, 1)
        else {
            return None;
        };
        if next == s.len() {
            return Some(Time { seconds, nanos: 0 });
        }
        let nanos = nanos_at(s, next)?;
        return Some(Time { seconds, nanos });
    }
    below_second(s)
}

fn plain_time(s: &[u8]) -> Option<Time>
    ensures { TimeSaid s.now result }
{
    if s.is_empty() {
        return Some(Time {
            seconds: 0,
            nanos: 0,
        });
    }
    from_seconds(s)
}

// ---- the buffer

// The data at a place, where it ends the IoBuffer; 0 to 0 where the buffer has ended there.
#[tactic(auto, unfolding(crate::specs::Plain::Tailed))]
fn data_at(s: &[u8], at: usize) -> Option<Span>
    ensures { Tailed s.now at result }
{
    if s.len() <= at {
        return Some(Span { start: 0, end: 0 });
    }
    if has_tag(s, at, 18) {
        let data = part_found(s, at + 1)?;
        if data.end == s.len() {
            return Some(data);
        }
    }
    None
}

// An IoBuffer whose delay is at these places.
#[tactic(auto, unfolding(crate::specs::Plain::IoSaid))]
fn from_delay(s: &[u8], delay: Span) -> Option<Timed>
    requires has_tag { HasTag s.now 0 10 }
    requires s_value { part_of s.now 1 (varint_at s.now 1) ≡ Ok delay }
    ensures { IoSaid s.now result }
{
    let time = plain_time(&s[delay.start..delay.end])?;
    let contents = data_at(s, delay.end)?;
    Some(Timed {
        delay: time,
        contents,
    })
}

#[tactic(auto, unfolding(crate::specs::Plain::IoSaid))]
fn plain_io(s: &[u8]) -> Option<Timed>
    ensures { IoSaid s.now result }
{
    if has_tag(s, 0, 10) {
        return from_delay(s, part_found(s, 1)?);
    }
    None
}

// ---- the message

// The tags of the members 6 to 10 in one byte.
#[tactic(auto, using(base_laws::proofs::Tests::tests), unfolding(crate::specs::Plain::is_io))]
fn is_io(tag: u64) -> bool
    ensures { result ≡ is_io tag }
{
    50 <= tag && tag <= 82 && tag % 8 == 2
}

// A message whose one member is an I/O buffer at these places, the last of which is the end.
#[tactic(auto, unfolding(crate::specs::Plain::ClientSaid))]
fn from_member(s: &[u8], tag: u64, bytes: Span) -> Option<ClientMember>
    requires io_tag { (IoTag tag) × (HasTag s.now 0 tag) }
    requires s_value { part_of s.now 1 (varint_at s.now 1) ≡ Ok bytes }
    requires end_value { bytes.end ≡ length s.now }
    ensures { ClientSaid s.now result }
{
    let Span { start, end } = bytes;
    let Timed { delay, contents } = plain_io(&s[start..end])?;
    Some(ClientMember::Io {
        member: tag / 8,
        io: Timed {
            delay,
            contents: Span {
                start: start + contents.start,
                end: start + contents.end,
            },
        },
    })
}

// A message whose one member is an I/O buffer.
#[tactic(auto, unfolding(crate::specs::Plain::ClientSaid))]
fn plain_client(s: &[u8]) -> Option<ClientMember>
    ensures { ClientSaid s.now result }
{
    if s.is_empty() {
        return None;
    }
    let tag = u64::from(s[0]);
    if is_io(tag) {
        let bytes = part_found(s, 1)?;
        if bytes.end == s.len() {
            return from_member(s, tag, bytes);
        }
    }
    None
}

// A ClientMessage: its last member, an I/O buffer by its values; or its refusal with the place.
pub fn client(s: &[u8]) -> Result<Option<ClientMember>, Refused>
    ensures { result ≡ client_of s.now }
{
    match plain_client(s) {
        Some(member) => Ok(Some(member)),
        None => client_walk(s),
    }
}
