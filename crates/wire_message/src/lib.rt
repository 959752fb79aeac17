// What the messages of sudo_logsrv.proto mean, and the values of each embedded message: numbers as they were read, and places
// of bytes. They are those of every slice, checked or not; a message that the check refuses has the fields before the broken one.
// Each contract says the answer itself, `places`, and what it means.
#![tactic(auto)]

ghost use Rattle.std.specs.Prelude.{◌≡◌};
ghost use Rattle.wire_fields.specs.Fields.{number_in};
ghost use Rattle.wire_fields.specs.Items.{items, last_item};
ghost use Rattle.wire_walk_io.specs.Places.{time_numbers};
ghost use Rattle.wire_message.specs.Signed.{bool};
ghost use Rattle.wire_message.specs.Message as m;
ghost use Rattle.wire_message.specs.Places.{accept_at, exit_at, restart_at, timed_at, window_at, held_in, time_value, accept_value, exit_value, restart_value, timed_value, window_value, value_at};

use wire_fields::{Last, last_in, number_in, part_in};
use wire_types::{Span, Time, Timed};
use wire_walk_io::time::time_in;

// The bool of a field.
fn flag_in(s: &[u8], number: u64) -> bool
    ensures { result ≡ bool (number_in number s.now) }
{
    number_in(s, number) != 0
}

// A TimeSpec by itself.
pub fn time_spec_in(s: &[u8]) -> Time
    ensures places { result ≡ time_numbers s.now }
    ensures means { time_value result ≡ m.time_spec (items s.now) }
{
    Time {
        seconds: number_in(s, 1),
        nanos: number_in(s, 2),
    }
}

// An AcceptMessage. Its entries are its fields 2, one after the other by `next_part`.
#[derive(Clone, Copy)]
pub struct Accept {
    pub submit_time: Time,
    pub expect_iobufs: bool,
}

pub fn accept_in(s: &[u8]) -> Accept
    ensures places { result ≡ accept_at s.now }
    ensures means { accept_value s.now result ≡ m.accept (items s.now) }
{
    Accept {
        submit_time: time_in(s, 1),
        expect_iobufs: flag_in(s, 3),
    }
}

// An ExitMessage. The exit value is the low 32 bits of its number.
#[derive(Clone, Copy)]
pub struct Exit {
    pub run_time: Time,
    pub exit_value: u64,
    pub dumped_core: bool,
    pub signal: Span,
    pub error: Span,
}

pub fn exit_in(s: &[u8]) -> Exit
    ensures places { result ≡ exit_at s.now }
    ensures means { exit_value s.now result ≡ m.exit (items s.now) }
{
    Exit {
        run_time: time_in(s, 1),
        exit_value: number_in(s, 2),
        dumped_core: flag_in(s, 3),
        signal: part_in(s, 4),
        error: part_in(s, 5),
    }
}

#[derive(Clone, Copy)]
pub struct Restart {
    pub log_id: Span,
    pub resume_point: Time,
}

pub fn restart_in(s: &[u8]) -> Restart
    ensures places { result ≡ restart_at s.now }
    ensures means { restart_value s.now result ≡ m.restart (items s.now) }
{
    Restart {
        log_id: part_in(s, 1),
        resume_point: time_in(s, 2),
    }
}

// An IoBuffer or a CommandSuspend.
pub fn timed_in(s: &[u8]) -> Timed
    ensures places { result ≡ timed_at s.now }
    ensures means { timed_value s.now result ≡ m.timed (items s.now) }
{
    Timed {
        delay: time_in(s, 1),
        contents: part_in(s, 2),
    }
}

// A ChangeWindowSize. Rows and columns are the low 32 bits of their numbers.
#[derive(Clone, Copy)]
pub struct WindowSize {
    pub delay: Time,
    pub rows: u64,
    pub cols: u64,
}

pub fn window_size_in(s: &[u8]) -> WindowSize
    ensures places { result ≡ window_at s.now }
    ensures means { window_value result ≡ m.window_size (items s.now) }
{
    WindowSize {
        delay: time_in(s, 1),
        rows: number_in(s, 2),
        cols: number_in(s, 3),
    }
}

// The value of an entry: a number, or where its bytes are. The strings of a list are its fields 1, its numbers come by
// `wire_elements::next_number`.
#[derive(Clone, Copy)]
pub enum Value {
    Number(u64),
    String(Span),
    Strings(Span),
    Numbers(Span),
}

pub fn value_in(s: &[u8]) -> Option<Value>
    ensures places { result ≡ held_in s.now }
    ensures means { value_at s.now result ≡ m.value_of (last_item 2 5 (items s.now)) }
{
    match last_in(s, 2, 5) {
        None => None,
        Some(Last::Number { value, .. }) => Some(Value::Number(value)),
        Some(Last::Part { number, start, end }) => match number {
            3 => Some(Value::String(Span { start, end })),
            4 => Some(Value::Strings(Span { start, end })),
            5 => Some(Value::Numbers(Span { start, end })),
            _ => None,
        },
    }
}
