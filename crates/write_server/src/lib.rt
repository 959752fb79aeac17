// The writers of a ServerMessage's members, as in `write_client`.
#![tactic(auto)]

ghost use Rattle.std.specs.Prelude.{◌≡◌, [], ◌∷◌, length};
ghost use Rattle.write_forms.specs.Pieces.{bytes, encode_all};
ghost use Rattle.write_forms.specs.Draft.{time_pieces, server_hello_pieces, cut_at, wrapped};
ghost use Rattle.write_forms.specs.Outcome.{buffer};
ghost use Rattle.write_pieces.specs.Parts.{stamp};
ghost use Rattle.write_message.specs.Fits.{server_hello_fits, int32_fits, time_fits, note_fits};
ghost use Rattle.write_message.specs.Wrote.{wrote};

use wire_types::Time;
use write_message::fits::{member_in, moment_fits};
use write_message::form::Form;
use write_message::outcome::WriteError;
use write_message::write::{write_message, write_plain};

// The first number above an int32, and the 64 bits of the least int32.
const INT32_END: u64 = 2147483648;

const INT32_LEAST: u64 = 18446744071562067968;

// A ServerHello, member 1; its servers are lent as joined bytes and ends.
pub fn write_server_hello<'a>(
    member: u64,
    server_id: &'a [u8],
    redirect: &'a [u8],
    joined: &[u8],
    ends: &[usize],
    subcommands: bool,
    framed: bool,
    out: &mut [u8],
) -> Result<usize, WriteError>
    ensures answer { result ≡ wrote 0 (server_hello_fits member joined.now ends.now) framed (wrapped member (server_hello_pieces server_id.now redirect.now (cut_at joined.now 0 ends.now) subcommands)) (length out.old) }
    ensures buffer { out.new ≡ buffer 0 (server_hello_fits member joined.now ends.now) framed (wrapped member (server_hello_pieces server_id.now redirect.now (cut_at joined.now 0 ends.now) subcommands)) out.old }
{
    let fits = member_in(1, 1, member);
    let p = Form {
        text_one: server_id,
        text_two: redirect,
        list: 3,
        four: u64::from(subcommands),
        ..Form::EMPTY
    };
    write_message(0, fits, member, &p, joined, ends, framed, out)
}

// Are 64 bits those of an int32, in two's complement.
#[tactic(auto, unfolding(write_message::specs::Fits::int32_fits))]
fn int32_fits(n: u64) -> bool
    ensures { result ≡ int32_fits n }
{
    n < INT32_END || INT32_LEAST <= n
}

// A TimeSpec by itself is any int64 and any int32.
#[tactic(auto, unfolding(write_message::specs::Fits::time_fits))]
fn time_fits(member: u64, t: Time) -> bool
    ensures { result ≡ time_fits member (stamp t.seconds t.nanos) }
{
    if member == 0 {
        return int32_fits(t.nanos);
    }
    member == 2 && moment_fits(t)
}

// A TimeSpec by itself, or a commit_point, member 2.
pub fn write_time(
    member: u64,
    seconds: u64,
    nanos: u64,
    framed: bool,
    out: &mut [u8],
) -> Result<usize, WriteError>
    ensures answer { result ≡ wrote 0 (time_fits member (stamp seconds nanos)) framed (wrapped member (time_pieces (stamp seconds nanos))) (length out.old) }
    ensures buffer { out.new ≡ buffer 0 (time_fits member (stamp seconds nanos)) framed (wrapped member (time_pieces (stamp seconds nanos))) out.old }
{
    let fits = time_fits(member, Time { seconds, nanos });
    let p = Form {
        one: seconds,
        two: nanos,
        ..Form::EMPTY
    };
    write_plain(0, fits, member, &p, framed, out)
}

fn note_fits(member: u64) -> bool
    ensures { result ≡ note_fits member }
{
    (3..=5).contains(&member)
}

// A log_id, an error or an abort, members 3 to 5: the string is the member itself.
pub fn write_note(
    member: u64,
    note: &[u8],
    framed: bool,
    out: &mut [u8],
) -> Result<usize, WriteError>
    ensures answer { result ≡ wrote 0 (note_fits member) framed (encode_all (bytes member note.now ∷ [])) (length out.old) }
    ensures buffer { out.new ≡ buffer 0 (note_fits member) framed (encode_all (bytes member note.now ∷ [])) out.old }
{
    let fits = note_fits(member);
    let p = Form {
        lent: note,
        ..Form::EMPTY
    };
    write_plain(0, fits, member, &p, framed, out)
}
