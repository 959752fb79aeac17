// Reading a message: the refusals in document 01's order, and the members of ClientMessage and ServerMessage. This crate, with
// `wire_message` for the members' values and `wire_range` for their ranges, is what a session builds on.
#![tactic(auto)]

ghost use Rattle.std.specs.Prelude.{◌≡◌};
ghost use Rattle.wire_fields.specs.Items.{items, last_item};
ghost use Rattle.wire_walk_client.specs.Client.{client_of};
ghost use Rattle.wire.specs.Read.{is_absent, no_member, refusal_number, decode_number, read_number, client_message, server_message};
ghost use Rattle.wire.specs.Places.{server_of, client_value, server_value};

use wire_check::check;
use wire_fast_client::client;
use wire_fields::{Last, last_in};
use wire_range::in_range;
use wire_schema::{CLIENT_MESSAGE, SERVER_MESSAGE};
use wire_types::{ClientMember, Refusal, Refused, Span};

// Has a oneof no member: its members are the fields from lo to hi.
fn is_absent(s: &[u8], lo: u64, hi: u64) -> bool
    ensures { result ≡ is_absent (last_item lo hi (items s.now)) }
{
    match last_in(s, lo, hi) {
        None => true,
        Some(Last::Number { .. }) => true,
        Some(Last::Part { .. }) => false,
    }
}

// Is it a ClientMessage or a ServerMessage with no member. The message is a number and no enum: `sudolog_decode` and `sudolog_read` take any,
// and `decode_number` and `read_number` range over all.
#[tactic(auto, using(base_laws::proofs::Tests::tests), unfolding(crate::specs::Read::no_member))]
fn no_member(message: u8, s: &[u8]) -> bool
    ensures { result ≡ no_member message (items s.now) }
{
    match message {
        CLIENT_MESSAGE => is_absent(s, 1, 13),
        SERVER_MESSAGE => is_absent(s, 1, 5),
        _ => false,
    }
}

// A message's refusal as a session reads it, 2 to 6. It has two callers, and each call is short where the message is broken at once: so it is to be
// inlined.
#[inline(always)]
pub fn decode(message: u8, s: &[u8]) -> Result<(), Refusal>
    ensures { refusal_number result ≡ decode_number message s.now }
{
    match check(message, s) {
        Err(refused) => Err(refused.refusal),
        Ok(()) => {
            if no_member(message, s) {
                return Err(Refusal::NoMember);
            }
            Ok(())
        }
    }
}

// A message's refusal as a reader by itself gives it, 2 to 7.
pub fn read(message: u8, s: &[u8]) -> Result<(), Refusal>
    ensures { refusal_number result ≡ read_number message s.now }
{
    decode(message, s)?;
    if in_range(message, s) {
        return Ok(());
    }
    Err(Refusal::Range)
}

// A ClientMessage in one walk: its last member, if it has one.
pub fn client_message(s: &[u8]) -> Result<Option<ClientMember>, Refused>
    ensures places { result ≡ client_of s.now }
    ensures means { client_value s.now result ≡ client_message s.now }
{
    client(s)
}

// The last member of a ServerMessage: its number, and where its bytes are.
#[derive(Clone, Copy)]
pub struct ServerMember {
    pub member: u64,
    pub bytes: Span,
}

// A ServerMessage: its last member, if it has one.
pub fn server_message(s: &[u8]) -> Result<Option<ServerMember>, Refused>
    ensures places { result ≡ server_of s.now }
    ensures means { server_value s.now result ≡ server_message s.now }
{
    match check(SERVER_MESSAGE, s) {
        Err(refused) => Err(refused),
        Ok(()) => match last_in(s, 1, 5) {
            None => Ok(None),
            Some(Last::Number { .. }) => Ok(None),
            Some(Last::Part { number, start, end }) => Ok(Some(ServerMember {
                member: number,
                bytes: Span { start, end },
            })),
        },
    }
}
