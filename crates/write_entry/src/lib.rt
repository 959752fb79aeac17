// Entries. An entry is written by itself, or tagged as in the run of an AcceptMessage (member 2), a RejectMessage or
// an AlertMessage (member 3): runs are tagged entries one after the other. Lists of strings are lent as joined bytes and ends.
#![tactic(auto)]

ghost use Rattle.std.specs.Prelude.{◌≡◌, length};
ghost use Rattle.write_forms.specs.Draft.{numval, strval, strlistval, numlistval, entry_pieces, cut_at, wrapped};
ghost use Rattle.write_forms.specs.Outcome.{buffer};
ghost use Rattle.write_message.specs.Fits.{entry_fits, entry_strings_fits};
ghost use Rattle.write_message.specs.Wrote.{wrote};

use write_message::fits::member_in;
use write_message::form::Form;
use write_message::outcome::WriteError;
use write_message::write::{write_message, write_plain};

fn entry_fits(member: u64, key: &[u8]) -> bool
    ensures { result ≡ entry_fits member key.now }
{
    member_in(2, 3, member) && 1 <= key.len()
}

// An entry with a number.
pub fn write_entry_number(
    member: u64,
    key: &[u8],
    value: u64,
    framed: bool,
    out: &mut [u8],
) -> Result<usize, WriteError>
    ensures answer { result ≡ wrote 0 (entry_fits member key.now) framed (wrapped member (entry_pieces key.now (numval value))) (length out.old) }
    ensures buffer { out.new ≡ buffer 0 (entry_fits member key.now) framed (wrapped member (entry_pieces key.now (numval value))) out.old }
{
    let fits = entry_fits(member, key);
    let p = Form {
        text_one: key,
        two: value,
        always: true,
        ..Form::EMPTY
    };
    write_plain(0, fits, member, &p, framed, out)
}

// An entry with a string.
pub fn write_entry_string<'a>(
    member: u64,
    key: &'a [u8],
    value: &'a [u8],
    framed: bool,
    out: &mut [u8],
) -> Result<usize, WriteError>
    ensures answer { result ≡ wrote 0 (entry_fits member key.now) framed (wrapped member (entry_pieces key.now (strval value.now))) (length out.old) }
    ensures buffer { out.new ≡ buffer 0 (entry_fits member key.now) framed (wrapped member (entry_pieces key.now (strval value.now))) out.old }
{
    let fits = entry_fits(member, key);
    let p = Form {
        text_one: key,
        inner: 3,
        lent: value,
        ..Form::EMPTY
    };
    write_plain(0, fits, member, &p, framed, out)
}

// An entry with a list of strings.
pub fn write_entry_strings(
    member: u64,
    key: &[u8],
    joined: &[u8],
    ends: &[usize],
    framed: bool,
    out: &mut [u8],
) -> Result<usize, WriteError>
    ensures answer { result ≡ wrote 0 (entry_strings_fits member key.now joined.now ends.now) framed (wrapped member (entry_pieces key.now (strlistval (cut_at joined.now 0 ends.now)))) (length out.old) }
    ensures buffer { out.new ≡ buffer 0 (entry_strings_fits member key.now joined.now ends.now) framed (wrapped member (entry_pieces key.now (strlistval (cut_at joined.now 0 ends.now)))) out.old }
{
    let fits = entry_fits(member, key);
    let p = Form {
        text_one: key,
        list: 1,
        inner: 4,
        ..Form::EMPTY
    };
    write_message(0, fits, member, &p, joined, ends, framed, out)
}

// An entry with a list of numbers.
pub fn write_entry_numbers<'a>(
    member: u64,
    key: &'a [u8],
    numbers: &'a [u64],
    framed: bool,
    out: &mut [u8],
) -> Result<usize, WriteError>
    ensures answer { result ≡ wrote 0 (entry_fits member key.now) framed (wrapped member (entry_pieces key.now (numlistval numbers.now))) (length out.old) }
    ensures buffer { out.new ≡ buffer 0 (entry_fits member key.now) framed (wrapped member (entry_pieces key.now (numlistval numbers.now))) out.old }
{
    let fits = entry_fits(member, key);
    let p = Form {
        text_one: key,
        inner: 5,
        numbers,
        ..Form::EMPTY
    };
    write_plain(0, fits, member, &p, framed, out)
}
