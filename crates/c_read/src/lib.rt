// What C calls to read: functions on numbers and byte slices alone. include/sudolog.h declares them and says what each one returns.
// A `&[u8]` comes as a pointer and a length; a `&mut [u8]` is the buffer that the caller lends for more than one number.
#![tactic(auto)]

ghost use Rattle.std.specs.Prelude.{◌≡◌, length};
ghost use Rattle.wire_frame.specs.Frame.{cut_of, frame_state, count_of};
ghost use Rattle.wire_fields.specs.Fields.{last_in, member_from};
ghost use Rattle.wire_walk_client.specs.Client.{client_of};
ghost use Rattle.wire.specs.Read.{refusal_number, decode_number, read_number, value, client_message, server_message};
ghost use Rattle.wire.specs.Places.{server_of};
ghost use Rattle.c_read.specs.Answers.{member_of, read_answer, client_buffer, client_told, server_buffer, server_told};

use base_numbers::lay;
use wire::{ServerMember, client_message, decode, read, server_message};
use wire_fields::{Last, between, last_in};
use wire_frame::{count_of, cut_frame, state_of};
use wire_schema::{CLIENT_MESSAGE, INFO_MESSAGE, SERVER_MESSAGE};
use wire_types::{ClientMember, Refusal, Span, Time, Timed};

#[unsafe(no_mangle)]
pub extern "C" fn sudolog_frame_state(s: &[u8]) -> u8
    ensures { result ≡ frame_state (cut_of s.now) }
{
    state_of(cut_frame(s))
}

#[unsafe(no_mangle)]
pub extern "C" fn sudolog_frame_count(s: &[u8]) -> u64
    ensures { result ≡ count_of (cut_of s.now) }
{
    count_of(cut_frame(s)) as u64
}

// A refusal's number in document 01, 0 for none.
fn number_of(read: Result<(), Refusal>) -> u8
    ensures { result ≡ refusal_number read }
{
    match read {
        Ok(()) => 0,
        Err(refusal) => u8::from(refusal),
    }
}

#[unsafe(no_mangle)]
pub extern "C" fn sudolog_decode(message: u8, s: &[u8]) -> u8
    ensures { result ≡ decode_number message s.now }
{
    number_of(decode(message, s))
}

#[unsafe(no_mangle)]
pub extern "C" fn sudolog_read(message: u8, s: &[u8]) -> u8
    ensures { result ≡ read_number message s.now }
{
    number_of(read(message, s))
}

// The number of the last field from lo to hi, 0 for none.
#[tactic(auto, unfolding(wire_fields::specs::Fields::member_from))]
fn member_among(s: &[u8], lo: u64, hi: u64) -> u64
    ensures { result ≡ member_from (last_in lo hi s.now) }
{
    match last_in(s, lo, hi) {
        None => 0,
        Some(Last::Number { number, .. }) => number,
        Some(Last::Part { number, .. }) => number,
    }
}

#[unsafe(no_mangle)]
#[tactic(auto, using(base_laws::proofs::Tests::tests), unfolding(crate::specs::Answers::member_of))]
pub extern "C" fn sudolog_member(message: u8, s: &[u8]) -> u64
    ensures { result ≡ member_of message s.now }
{
    match message {
        CLIENT_MESSAGE => member_among(s, 1, 13),
        SERVER_MESSAGE => member_among(s, 1, 5),
        INFO_MESSAGE => member_among(s, 2, 5),
        _ => 0,
    }
}

#[unsafe(no_mangle)]
pub extern "C" fn sudolog_client(s: &[u8], out: &mut [u8]) -> u8
    ensures answer { result ≡ read_answer (client_message s.now) 40 (length out.old) }
    ensures buffer { out.new ≡ client_buffer (client_of s.now) out.old }
    ensures means { result ≡ 0 → client_message s.now ≡ value (client_told s.now out.new) }
{
    match client_message(s) {
        Ok(Some(ClientMember::Io { member, io })) => {
            let Timed { delay, contents } = io;
            let Time { seconds, nanos } = delay;
            let Span { start, end } = contents;
            let length = between(start, end);
            if lay(out, &[member, start as u64, length, seconds, nanos]) {
                return 0;
            }
            12
        }
        Ok(Some(ClientMember::Other { member, bytes })) => {
            let Span { start, end } = bytes;
            let length = between(start, end);
            if lay(out, &[member, start as u64, length, 0, 0]) {
                return 0;
            }
            12
        }
        Ok(None) => u8::from(Refusal::NoMember),
        Err(refused) => u8::from(refused.refusal),
    }
}

#[unsafe(no_mangle)]
pub extern "C" fn sudolog_server(s: &[u8], out: &mut [u8]) -> u8
    ensures answer { result ≡ read_answer (server_message s.now) 24 (length out.old) }
    ensures buffer { out.new ≡ server_buffer (server_of s.now) out.old }
    ensures means { result ≡ 0 → server_message s.now ≡ value (server_told s.now out.new) }
{
    match server_message(s) {
        Ok(Some(ServerMember { member, bytes })) => {
            let Span { start, end } = bytes;
            let length = between(start, end);
            if lay(out, &[member, start as u64, length]) {
                return 0;
            }
            12
        }
        Ok(None) => 6,
        Err(refused) => u8::from(refused.refusal),
    }
}
