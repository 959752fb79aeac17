// The writers of the messages that a session stores after its accept: I/O buffers, window sizes, suspends and exits. How a writer is
// called and what it returns stands in `write_client`, which has those of the other members of a ClientMessage.
#![tactic(auto)]

ghost use Rattle.std.specs.Prelude.{◌≡◌, length};
ghost use Rattle.write_forms.specs.Draft.{exit_pieces, timed_pieces, window_pieces, wrapped};
ghost use Rattle.write_forms.specs.Outcome.{buffer};
ghost use Rattle.write_pieces.specs.Parts.{stamp};
ghost use Rattle.write_message.specs.Fits.{exit_fits, io_fits, window_fits, suspend_fits};
ghost use Rattle.write_message.specs.Wrote.{wrote};

use wire_types::Time;
use write_message::fits::{member_in, moment_fits, sized};
use write_message::form::Form;
use write_message::outcome::WriteError;
use write_message::write::write_plain;

const EXIT_VALUE_LIMIT: u64 = 255;

const WINDOW_LIMIT: u64 = 65535;

const SIGNAL_LIMIT: usize = 127;

fn exit_fits(member: u64, t: Time, exit_value: u64, signal: &[u8]) -> bool
    ensures { result ≡ exit_fits member (stamp t.seconds t.nanos) exit_value signal.now }
{
    member_in(3, 3, member)
        && moment_fits(t)
        && exit_value <= EXIT_VALUE_LIMIT
        && sized(0, SIGNAL_LIMIT, signal)
}

// An ExitMessage, member 3.
pub fn write_exit<'a>(
    member: u64,
    seconds: u64,
    nanos: u64,
    exit_value: u64,
    dumped_core: bool,
    signal: &'a [u8],
    error: &'a [u8],
    framed: bool,
    out: &mut [u8],
) -> Result<usize, WriteError>
    ensures answer { result ≡ wrote 0 (exit_fits member (stamp seconds nanos) exit_value signal.now) framed (wrapped member (exit_pieces (stamp seconds nanos) exit_value dumped_core signal.now error.now)) (length out.old) }
    ensures buffer { out.new ≡ buffer 0 (exit_fits member (stamp seconds nanos) exit_value signal.now) framed (wrapped member (exit_pieces (stamp seconds nanos) exit_value dumped_core signal.now error.now)) out.old }
{
    let stamp = Time { seconds, nanos };
    let p = Form {
        time: 1,
        stamp,
        two: exit_value,
        three: u64::from(dumped_core),
        text_four: signal,
        text_five: error,
        ..Form::EMPTY
    };
    write_plain(
        0,
        exit_fits(member, stamp, exit_value, signal),
        member,
        &p,
        framed,
        out,
    )
}

fn io_fits(member: u64, t: Time) -> bool
    ensures { result ≡ io_fits member (stamp t.seconds t.nanos) }
{
    member_in(6, 10, member) && moment_fits(t)
}

// An IoBuffer, members 6 to 10.
pub fn write_io(
    member: u64,
    seconds: u64,
    nanos: u64,
    data: &[u8],
    framed: bool,
    out: &mut [u8],
) -> Result<usize, WriteError>
    ensures answer { result ≡ wrote 0 (io_fits member (stamp seconds nanos)) framed (wrapped member (timed_pieces (stamp seconds nanos) «data».now)) (length out.old) }
    ensures buffer { out.new ≡ buffer 0 (io_fits member (stamp seconds nanos)) framed (wrapped member (timed_pieces (stamp seconds nanos) «data».now)) out.old }
{
    let stamp = Time { seconds, nanos };
    let p = Form {
        time: 1,
        stamp,
        text_two: data,
        ..Form::EMPTY
    };
    write_plain(0, io_fits(member, stamp), member, &p, framed, out)
}

fn window_fits(member: u64, t: Time, rows: u64, cols: u64) -> bool
    ensures { result ≡ window_fits member (stamp t.seconds t.nanos) rows cols }
{
    member_in(11, 11, member) && moment_fits(t) && rows <= WINDOW_LIMIT && cols <= WINDOW_LIMIT
}

// A ChangeWindowSize, member 11.
pub fn write_window_size(
    member: u64,
    seconds: u64,
    nanos: u64,
    rows: u64,
    cols: u64,
    framed: bool,
    out: &mut [u8],
) -> Result<usize, WriteError>
    ensures answer { result ≡ wrote 0 (window_fits member (stamp seconds nanos) rows cols) framed (wrapped member (window_pieces (stamp seconds nanos) rows cols)) (length out.old) }
    ensures buffer { out.new ≡ buffer 0 (window_fits member (stamp seconds nanos) rows cols) framed (wrapped member (window_pieces (stamp seconds nanos) rows cols)) out.old }
{
    let stamp = Time { seconds, nanos };
    let p = Form {
        time: 1,
        stamp,
        two: rows,
        three: cols,
        ..Form::EMPTY
    };
    write_plain(
        0,
        window_fits(member, stamp, rows, cols),
        member,
        &p,
        framed,
        out,
    )
}

fn suspend_fits(member: u64, t: Time, signal: &[u8]) -> bool
    ensures { result ≡ suspend_fits member (stamp t.seconds t.nanos) signal.now }
{
    member_in(12, 12, member) && moment_fits(t) && sized(1, SIGNAL_LIMIT, signal)
}

// A CommandSuspend, member 12.
pub fn write_suspend(
    member: u64,
    seconds: u64,
    nanos: u64,
    signal: &[u8],
    framed: bool,
    out: &mut [u8],
) -> Result<usize, WriteError>
    ensures answer { result ≡ wrote 0 (suspend_fits member (stamp seconds nanos) signal.now) framed (wrapped member (timed_pieces (stamp seconds nanos) signal.now)) (length out.old) }
    ensures buffer { out.new ≡ buffer 0 (suspend_fits member (stamp seconds nanos) signal.now) framed (wrapped member (timed_pieces (stamp seconds nanos) signal.now)) out.old }
{
    let stamp = Time { seconds, nanos };
    let p = Form {
        time: 1,
        stamp,
        text_two: signal,
        ..Form::EMPTY
    };
    write_plain(
        0,
        suspend_fits(member, stamp, signal),
        member,
        &p,
        framed,
        out,
    )
}
