// sudo_logsrv.proto: the kind of each message's fields.
#![tactic(auto)]

ghost use Rattle.std.specs.Prelude.{◌≡◌};
ghost use Rattle.wire_schema.specs.Schema.{kind_of};
ghost use Rattle.wire_schema.specs.Rows.{low_of, high_of, kind_in};

// The messages, by the numbers that `specs/Schema.antt` gives them under the same names.
pub const CLIENT_MESSAGE: u8 = 0;

pub const ACCEPT_MESSAGE: u8 = 1;

pub const REJECT_MESSAGE: u8 = 2;

pub const EXIT_MESSAGE: u8 = 3;

pub const RESTART_MESSAGE: u8 = 4;

pub const ALERT_MESSAGE: u8 = 5;

pub const IO_BUFFER: u8 = 6;

pub const CHANGE_WINDOW_SIZE: u8 = 7;

pub const COMMAND_SUSPEND: u8 = 8;

pub const CLIENT_HELLO: u8 = 9;

pub const TIME_SPEC: u8 = 10;

pub const INFO_MESSAGE: u8 = 11;

pub const STRING_LIST: u8 = 12;

pub const NUMBER_LIST: u8 = 13;

pub const SERVER_MESSAGE: u8 = 14;

pub const SERVER_HELLO: u8 = 15;

// The kinds of a message's fields 0 to 7, a byte for each. A `match`, and no constant table: a table is built anew at each use.
fn low_of(message: u8) -> u64
    ensures { result ≡ low_of message }
{
    match message {
        CLIENT_MESSAGE => 1591482694285529344,
        ACCEPT_MESSAGE => 52107776,
        REJECT_MESSAGE => 453253632,
        EXIT_MESSAGE => 4415276849664,
        RESTART_MESSAGE => 1704960,
        ALERT_MESSAGE => 453253632,
        IO_BUFFER => 334336,
        CHANGE_WINDOW_SIZE => 33692160,
        COMMAND_SUSPEND => 268800,
        CLIENT_HELLO => 1024,
        TIME_SPEC => 131328,
        INFO_MESSAGE => 32006163465216,
        STRING_LIST => 1024,
        NUMBER_LIST => 8192,
        SERVER_MESSAGE => 4415295201024,
        SERVER_HELLO => 12952273920,
        _ => 0,
    }
}

// The same of the fields 8 to 15.
fn high_of(message: u8) -> u64
    ensures { result ≡ high_of message }
{
    if message == CLIENT_MESSAGE {
        return 27591257232918;
    }
    0
}

fn kind_in(low: u64, high: u64, number: u64) -> u8
    ensures { result ≡ kind_in low high number }
{
    if number < 8 {
        return ((low >> (8 * number)) % 256) as u8;
    }
    if number < 16 {
        return ((high >> (8 * (number - 8))) % 256) as u8;
    }
    0
}

// The kind of a message's field, 0 for a field that the message does not have.
pub fn kind_of(message: u8, number: u64) -> u8
    ensures { result ≡ kind_of message number }
{
    kind_in(low_of(message), high_of(message), number)
}

// Does a field of this kind take this wire type.
pub fn takes(kind: u8, wire: u8) -> bool
    ensures { result ≡ Rattle.wire_schema.specs.Schema.takes kind wire }
{
    if kind == 0 {
        return true;
    }
    if kind <= 3 {
        return wire == 0;
    }
    if wire == 2 {
        return true;
    }
    if kind == 32 {
        return wire == 0;
    }
    false
}
