// The names in a line: those of a ClientMessage's members and of a session's states. Inner, as those of `numbers`: `put_..` requires the room and
// returns the place after what it put.
ghost use Rattle.std.specs.Prelude.{◌≡◌, ◌+◌, ◌≤◌, length};
ghost use Rattle.base_copy.specs.Put.{Put};
ghost use Rattle.replay_text.specs.Names.{member_name, shown_member, state_name};

use base_copy::put_raw;
use session_turn::State;
use wire_fields::{Last, last_in};

// The number of the member that counts, 0 for none.
#[tactic(auto, unfolding(crate::specs::Names::shown_member, wire_fields::specs::Fields::member_from))]
pub fn member_of(s: &[u8]) -> u64
    ensures { result ≡ shown_member s.now }
{
    match last_in(s, 1, 13) {
        None => 0,
        Some(Last::Number { number, .. } | Last::Part { number, .. }) => number,
    }
}

#[tactic(auto, using(base_laws::proofs::Tests::tests), unfolding(crate::specs::Names::member_name))]
fn member_name(member: u64) -> &'static [u8]
    ensures name { result.now ≡ member_name member }
    ensures short { length result.now ≤ 13 }
{
    match member {
        1 => b"accept_msg",
        2 => b"reject_msg",
        3 => b"exit_msg",
        4 => b"restart_msg",
        5 => b"alert_msg",
        6 => b"ttyin_buf",
        7 => b"ttyout_buf",
        8 => b"stdin_buf",
        9 => b"stdout_buf",
        10 => b"stderr_buf",
        11 => b"winsize_event",
        12 => b"suspend_event",
        _ => b"hello_msg",
    }
}

pub fn put_member(out: &mut [u8], at: usize, member: u64) -> usize
    requires { at + 13 ≤ length out.old }
    ensures { (Put out.old at (member_name member) out.new result) × (result ≤ at + 13) }
{
    put_raw(out, at, member_name(member))
}

#[tactic(auto, unfolding(crate::specs::Names::state_name))]
fn state_name(state: State) -> &'static [u8]
    ensures name { result.now ≡ state_name state }
    ensures short { length result.now ≤ 11 }
{
    match state {
        State::New => b"new",
        State::Greeted => b"greeted",
        State::Logging => b"logging",
        State::EventsOnly => b"events only",
        State::Closed => b"closed",
    }
}

pub fn put_state(out: &mut [u8], at: usize, state: State) -> usize
    requires { at + 11 ≤ length out.old }
    ensures { (Put out.old at (state_name state) out.new result) × (result ≤ at + 11) }
{
    put_raw(out, at, state_name(state))
}
