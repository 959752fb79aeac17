// The ranges of document 01's table: of each message.
#![tactic(auto)]

pub mod limits;

ghost use Rattle.std.specs.Prelude.{◌≡◌};
ghost use Rattle.wire_fields.specs.Items.{items, last_item};
ghost use Rattle.wire_message.specs.Message as m;
ghost use Rattle.wire_range.specs.Range.{accept_fits, report_fits, exit_fits, restart_fits, window_fits, suspend_fits, body_fits, client_fits, server_fits, in_range};

use crate::limits::{
    EXIT_VALUE_LIMIT, LOG_ID_LIMIT, SIGNAL_LIMIT, WINDOW_LIMIT, date_in, entries_fit, entry_fits,
    length_in, moment_fits, moment_in, number_fits,
};
use wire_fields::{Last, last_in};
use wire_message::time_spec_in;
use wire_schema::{
    ACCEPT_MESSAGE, ALERT_MESSAGE, CHANGE_WINDOW_SIZE, CLIENT_MESSAGE, COMMAND_SUSPEND,
    EXIT_MESSAGE, INFO_MESSAGE, IO_BUFFER, REJECT_MESSAGE, RESTART_MESSAGE, SERVER_MESSAGE,
    kind_of,
};

#[tactic(auto, using(base_laws::proofs::Tests::tests), unfolding(crate::specs::Range::accept_fits, wire_message::specs::Message::accept))]
fn accept_fits(s: &[u8]) -> bool
    ensures { result ≡ accept_fits (m.accept (items s.now)) }
{
    date_in(s, 1) && entries_fit(s, 2)
}

#[tactic(auto, using(base_laws::proofs::Tests::tests), unfolding(crate::specs::Range::report_fits, wire_message::specs::Message::report))]
fn report_fits(s: &[u8]) -> bool
    ensures { result ≡ report_fits (m.report (items s.now)) }
{
    date_in(s, 1) && entries_fit(s, 3)
}

#[tactic(auto, using(base_laws::proofs::Tests::tests), unfolding(crate::specs::Range::exit_fits, crate::specs::Limits::sized, wire_message::specs::Message::exit))]
fn exit_fits(s: &[u8]) -> bool
    ensures { result ≡ exit_fits (m.exit (items s.now)) }
{
    moment_in(s, 1) && number_fits(s, 2, EXIT_VALUE_LIMIT) && length_in(s, 4) <= SIGNAL_LIMIT
}

#[tactic(auto, using(base_laws::proofs::Tests::tests), unfolding(crate::specs::Range::restart_fits, crate::specs::Limits::sized, wire_message::specs::Message::restart))]
fn restart_fits(s: &[u8]) -> bool
    ensures { result ≡ restart_fits (m.restart (items s.now)) }
{
    let n = length_in(s, 1);
    1 <= n && n <= LOG_ID_LIMIT && moment_in(s, 2)
}

#[tactic(auto, using(base_laws::proofs::Tests::tests), unfolding(crate::specs::Range::window_fits, wire_message::specs::Message::window_size))]
fn window_fits(s: &[u8]) -> bool
    ensures { result ≡ window_fits (m.window_size (items s.now)) }
{
    moment_in(s, 1) && number_fits(s, 2, WINDOW_LIMIT) && number_fits(s, 3, WINDOW_LIMIT)
}

#[tactic(auto, using(base_laws::proofs::Tests::tests), unfolding(crate::specs::Range::suspend_fits, crate::specs::Limits::sized, wire_message::specs::Message::timed))]
fn suspend_fits(s: &[u8]) -> bool
    ensures { result ≡ suspend_fits (m.timed (items s.now)) }
{
    if !moment_in(s, 1) {
        return false;
    }
    let n = length_in(s, 2);
    1 <= n && n <= SIGNAL_LIMIT
}

// The values of an embedded message, by its number in the schema: a number and no enum, since `in_range` takes any.
#[tactic(auto, using(base_laws::proofs::Tests::tests), unfolding(crate::specs::Range::body_fits, crate::specs::Range::io_fits, wire_message::specs::Message::timed))]
pub fn body_fits(message: u8, s: &[u8]) -> bool
    ensures { result ≡ body_fits message (items s.now) }
{
    match message {
        ACCEPT_MESSAGE => accept_fits(s),
        REJECT_MESSAGE => report_fits(s),
        EXIT_MESSAGE => exit_fits(s),
        RESTART_MESSAGE => restart_fits(s),
        ALERT_MESSAGE => report_fits(s),
        IO_BUFFER => moment_in(s, 1),
        CHANGE_WINDOW_SIZE => window_fits(s),
        COMMAND_SUSPEND => suspend_fits(s),
        INFO_MESSAGE => entry_fits(s),
        _ => true,
    }
}

// The member of a ClientMessage.
fn client_fits(s: &[u8]) -> bool
    ensures { result ≡ client_fits (last_item 1 13 (items s.now)) }
{
    match last_in(s, 1, 13) {
        None => true,
        Some(Last::Number { .. }) => true,
        Some(Last::Part { number, start, end }) => {
            let kind = kind_of(CLIENT_MESSAGE, number);
            if 16 <= kind {
                return body_fits(kind - 16, &s[start..end]);
            }
            true
        }
    }
}

// The member of a ServerMessage.
fn server_fits(s: &[u8]) -> bool
    ensures { result ≡ server_fits (last_item 1 5 (items s.now)) }
{
    match last_in(s, 1, 5) {
        None => true,
        Some(Last::Number { .. }) => true,
        Some(Last::Part { number, start, end }) => {
            if number == 2 {
                return moment_fits(time_spec_in(&s[start..end]));
            }
            true
        }
    }
}

// Are the values of a message that count in range.
#[tactic(auto, using(base_laws::proofs::Tests::tests), unfolding(crate::specs::Range::in_range))]
pub fn in_range(message: u8, s: &[u8]) -> bool
    ensures { result ≡ in_range message (items s.now) }
{
    match message {
        CLIENT_MESSAGE => client_fits(s),
        SERVER_MESSAGE => server_fits(s),
        _ => body_fits(message, s),
    }
}
