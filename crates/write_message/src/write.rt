// Every message is written here: the refusals in document 01's order ("its run's refusal, then 7, then 1 for a message too long,
// then 12"), then the frame, the member around the message, and the form.
ghost use Rattle.std.specs.Prelude.{◌≡◌, [], ltb};
ghost use Rattle.base_laws.specs.Base;
ghost use Rattle.write_forms.specs.Draft.{wrapped};
ghost use Rattle.write_message.specs.Fits.{ends_fit};
ghost use Rattle.write_message.specs.Form.{middle, form_pieces};
ghost use Rattle.write_message.specs.Wrote.{WriteOutcome, room_for};

use crate::form::{Form, len_form, len_middle, put_form};
use crate::outcome::WriteError;
use write_lists::Strings;
use write_pieces::part::{MESSAGE_LIMIT, len_cover, len_front, put_cover, put_front};

// Refuses a message of n bytes: with 1 where it is too long, with 12 where it and its frame have no room.
#[tactic(auto, using(base_laws::proofs::Tests::tests), unfolding(write_forms::specs::Outcome::room_refusal))]
fn room_for(framed: bool, n: usize, room: usize) -> Result<(), WriteError>
    ensures { result ≡ room_for framed n room }
{
    if MESSAGE_LIMIT < n {
        return Err(WriteError::TooLong);
    }
    if room < len_front(framed) + n {
        return Err(WriteError::NoRoom);
    }
    Ok(())
}

// Values in range, `fits`, as the member `member`, with a list of strings: else 7. `run` is its run's refusal, 0 for none: a number, as
// `write_run` gives it.
fn lay_message(
    run: u8,
    fits: bool,
    member: u64,
    p: &Form<'_>,
    list: &Strings<'_>,
    framed: bool,
    out: &mut [u8],
) -> Result<usize, WriteError>
    ensures { WriteOutcome run (Base.both fits (ltb member 256)) framed (wrapped member (form_pieces p.now (middle p.now list.now.joined.now list.now.ends.now))) out.old result out.new }
{
    if run != 0 {
        return Err(WriteError::Run(run));
    }
    if !fits {
        return Err(WriteError::Range);
    }
    let Ok(around) = u8::try_from(member) else {
        return Err(WriteError::Range);
    };
    let inner = len_middle(p, list);
    let n = len_form(p, inner);
    let m = len_cover(around, n) + n;
    room_for(framed, m, out.len())?;
    let a = put_front(out, framed, m);
    let b = put_cover(out, a, around, n);
    Ok(put_form(out, b, p, list, inner))
}

// The same with the list's strings as they are lent: 7 too where their ends do not fit.
pub fn write_message(
    run: u8,
    fits: bool,
    member: u64,
    p: &Form<'_>,
    joined: &[u8],
    ends: &[usize],
    framed: bool,
    out: &mut [u8],
) -> Result<usize, WriteError>
    ensures { WriteOutcome run (Base.both fits (Base.both (ltb member 256) (ends_fit joined.now ends.now))) framed (wrapped member (form_pieces p.now (middle p.now joined.now ends.now))) out.old result out.new }
{
    match Strings::new(joined, ends) {
        Some(list) => lay_message(run, fits, member, p, &list, framed, out),
        None => lay_message(run, false, member, p, &Strings::NONE, framed, out),
    }
}

// A message without a list of strings.
#[tactic(auto, unfolding(write_forms::specs::Draft::bad_ends))]
pub fn write_plain(
    run: u8,
    fits: bool,
    member: u64,
    p: &Form<'_>,
    framed: bool,
    out: &mut [u8],
) -> Result<usize, WriteError>
    ensures { WriteOutcome run (Base.both fits (ltb member 256)) framed (wrapped member (form_pieces p.now (middle p.now [] []))) out.old result out.new }
{
    lay_message(run, fits, member, p, &Strings::NONE, framed, out)
}
