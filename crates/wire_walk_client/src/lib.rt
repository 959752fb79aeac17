// One walk that checks a ClientMessage and collects its member at once.
#![tactic(auto)]

ghost use Rattle.std.specs.Prelude.{◌≡◌};
ghost use Rattle.wire_walk_client.specs.Client.{client_of};

use wire_check::check;
use wire_schema::{CLIENT_MESSAGE, kind_of, takes};
use wire_types::{ClientMember, Refusal, Refused, Span, Timed};
use wire_value::{Payload, payload_at};
use wire_varint::Varint;
use wire_varint::tag::{Tag, tag_at};
use wire_walk_io::io::io_buffer;

// The check of a client message and its last member in one walk. It does not call `step_at`: that has one caller, and is inlined there.
// The loop goes from field to field, and counts no index.
pub fn client_walk(s: &[u8]) -> Result<Option<ClientMember>, Refused>
    ensures { result ≡ client_of s.now }
{
    let mut at: usize = 0;
    let mut found: Option<ClientMember> = None;
    while at < s.len() {
        let Tag { number, wire, next } = match tag_at(s, at) {
            Ok(tag) => tag,
            Err(refusal) => return Err(Refused { refusal, place: at }),
        };
        let kind = kind_of(CLIENT_MESSAGE, number);
        if !takes(kind, wire) {
            return Err(Refused {
                refusal: Refusal::WireType,
                place: at,
            });
        }
        let payload = payload_at(s, at, next, wire)?;
        match payload {
            Payload::Part(Span { start, end }) => {
                if kind == 22 {
                    match io_buffer(&s[start..end]) {
                        Ok(Timed { delay, contents }) => {
                            found = Some(ClientMember::Io {
                                member: number,
                                io: Timed {
                                    delay,
                                    contents: Span {
                                        start: start + contents.start,
                                        end: start + contents.end,
                                    },
                                },
                            });
                            at = end;
                        }
                        Err(refused) => return Err(refused.within(start)),
                    }
                } else if 16 <= kind {
                    match check(kind - 16, &s[start..end]) {
                        Ok(()) => {
                            found = Some(ClientMember::Other {
                                member: number,
                                bytes: Span { start, end },
                            });
                            at = end;
                        }
                        Err(refused) => return Err(refused.within(start)),
                    }
                } else {
                    at = end;
                }
            }
            Payload::Number(Varint { next: after, .. }) => at = after,
            Payload::Fixed { next: after } => at = after,
        }
    }
    Ok(found)
}
