// The writers of a ClientMessage's members that open a session or an event: hello, accept, reject, alert and restart; `write_io` has
// the others. A writer, here and in `write_io`, `write_server`, `write_entry` and `write_list`, takes its message's fields,
// `framed` (with the four bytes of a frame before it) and the buffer, from whose start it writes; it returns how many bytes it
// wrote, or document 01's refusal. On a refusal nothing is written. `member` is the field number of the message
// around it, in which it is written, or 0 to write it by itself; any other number is refused with 7.
#![tactic(auto)]

ghost use Rattle.std.specs.Prelude.{◌≡◌, length};
ghost use Rattle.write_forms.specs.Draft.{accept_pieces, report_pieces, restart_pieces, client_hello_pieces, wrapped};
ghost use Rattle.write_forms.specs.Run.{run_refusal};
ghost use Rattle.write_forms.specs.Outcome.{buffer};
ghost use Rattle.write_pieces.specs.Parts.{stamp};
ghost use Rattle.write_message.specs.Fits.{client_hello_fits, accept_fits, report_member, report_fits, restart_fits};
ghost use Rattle.write_message.specs.Wrote.{wrote};

use wire_types::Time;
use write_message::fits::{date_fits, member_in, moment_fits, sized};
use write_message::form::Form;
use write_message::outcome::WriteError;
use write_message::write::write_plain;
use write_run::run_refusal;

const LOG_ID_LIMIT: usize = 4095;

// A ClientHello, member 13.
pub fn write_client_hello(
    member: u64,
    client_id: &[u8],
    framed: bool,
    out: &mut [u8],
) -> Result<usize, WriteError>
    ensures answer { result ≡ wrote 0 (client_hello_fits member) framed (wrapped member (client_hello_pieces client_id.now)) (length out.old) }
    ensures buffer { out.new ≡ buffer 0 (client_hello_fits member) framed (wrapped member (client_hello_pieces client_id.now)) out.old }
{
    let fits = member_in(13, 13, member);
    let p = Form {
        text_one: client_id,
        ..Form::EMPTY
    };
    write_plain(0, fits, member, &p, framed, out)
}

fn accept_fits(member: u64, t: Time) -> bool
    ensures { result ≡ accept_fits member (stamp t.seconds t.nanos) }
{
    member_in(1, 1, member) && date_fits(t)
}

// An AcceptMessage, member 1.
pub fn write_accept(
    member: u64,
    seconds: u64,
    nanos: u64,
    run: &[u8],
    expect_iobufs: bool,
    framed: bool,
    out: &mut [u8],
) -> Result<usize, WriteError>
    ensures answer { result ≡ wrote (run_refusal 2 run.now) (accept_fits member (stamp seconds nanos)) framed (wrapped member (accept_pieces (stamp seconds nanos) run.now expect_iobufs)) (length out.old) }
    ensures buffer { out.new ≡ buffer (run_refusal 2 run.now) (accept_fits member (stamp seconds nanos)) framed (wrapped member (accept_pieces (stamp seconds nanos) run.now expect_iobufs)) out.old }
{
    let refusal = run_refusal(2, run);
    let stamp = Time { seconds, nanos };
    let p = Form {
        time: 1,
        stamp,
        three: u64::from(expect_iobufs),
        lent: run,
        ..Form::EMPTY
    };
    write_plain(refusal, accept_fits(member, stamp), member, &p, framed, out)
}

// A RejectMessage is member 2, an AlertMessage member 5.
#[tactic(auto, unfolding(write_message::specs::Fits::report_member))]
fn report_member(member: u64) -> bool
    ensures { result ≡ report_member member }
{
    member == 2 || member_in(5, 5, member)
}

fn report_fits(member: u64, t: Time) -> bool
    ensures { result ≡ report_fits member (stamp t.seconds t.nanos) }
{
    report_member(member) && date_fits(t)
}

// A RejectMessage, member 2, or an AlertMessage, member 5: they have the same fields.
pub fn write_report<'a>(
    member: u64,
    seconds: u64,
    nanos: u64,
    reason: &'a [u8],
    run: &'a [u8],
    framed: bool,
    out: &mut [u8],
) -> Result<usize, WriteError>
    ensures answer { result ≡ wrote (run_refusal 3 run.now) (report_fits member (stamp seconds nanos)) framed (wrapped member (report_pieces (stamp seconds nanos) reason.now run.now)) (length out.old) }
    ensures buffer { out.new ≡ buffer (run_refusal 3 run.now) (report_fits member (stamp seconds nanos)) framed (wrapped member (report_pieces (stamp seconds nanos) reason.now run.now)) out.old }
{
    let refusal = run_refusal(3, run);
    let stamp = Time { seconds, nanos };
    let p = Form {
        time: 1,
        stamp,
        text_two: reason,
        lent: run,
        ..Form::EMPTY
    };
    write_plain(refusal, report_fits(member, stamp), member, &p, framed, out)
}

fn restart_fits(member: u64, log_id: &[u8], t: Time) -> bool
    ensures { result ≡ restart_fits member log_id.now (stamp t.seconds t.nanos) }
{
    member_in(4, 4, member) && sized(1, LOG_ID_LIMIT, log_id) && moment_fits(t)
}

// A RestartMessage, member 4.
pub fn write_restart(
    member: u64,
    log_id: &[u8],
    seconds: u64,
    nanos: u64,
    framed: bool,
    out: &mut [u8],
) -> Result<usize, WriteError>
    ensures answer { result ≡ wrote 0 (restart_fits member log_id.now (stamp seconds nanos)) framed (wrapped member (restart_pieces log_id.now (stamp seconds nanos))) (length out.old) }
    ensures buffer { out.new ≡ buffer 0 (restart_fits member log_id.now (stamp seconds nanos)) framed (wrapped member (restart_pieces log_id.now (stamp seconds nanos))) out.old }
{
    let stamp = Time { seconds, nanos };
    let p = Form {
        text_one: log_id,
        time: 2,
        stamp,
        ..Form::EMPTY
    };
    write_plain(
        0,
        restart_fits(member, log_id, stamp),
        member,
        &p,
        framed,
        out,
    )
}
