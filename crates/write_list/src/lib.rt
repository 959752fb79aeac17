// The writers of lists by themselves: a StringList and a NumberList. How a writer is called and what it returns stands in `write_client`.
#![tactic(auto)]

ghost use Rattle.std.specs.Prelude.{◌≡◌, true, length};
ghost use Rattle.write_forms.specs.Draft.{string_list_pieces, number_list_pieces, cut_at, wrapped};
ghost use Rattle.write_forms.specs.Outcome.{buffer};
ghost use Rattle.write_message.specs.Fits.{ends_fit};
ghost use Rattle.write_message.specs.Wrote.{wrote};

use write_message::form::Form;
use write_message::outcome::WriteError;
use write_message::write::{write_message, write_plain};

// A StringList by itself.
pub fn write_string_list(
    joined: &[u8],
    ends: &[usize],
    framed: bool,
    out: &mut [u8],
) -> Result<usize, WriteError>
    ensures answer { result ≡ wrote 0 (ends_fit joined.now ends.now) framed (wrapped 0 (string_list_pieces (cut_at joined.now 0 ends.now))) (length out.old) }
    ensures buffer { out.new ≡ buffer 0 (ends_fit joined.now ends.now) framed (wrapped 0 (string_list_pieces (cut_at joined.now 0 ends.now))) out.old }
{
    let p = Form {
        list: 1,
        ..Form::EMPTY
    };
    write_message(0, true, 0, &p, joined, ends, framed, out)
}

// A NumberList by itself.
pub fn write_number_list(numbers: &[u64], framed: bool, out: &mut [u8]) -> Result<usize, WriteError>
    ensures answer { result ≡ wrote 0 (true) framed (wrapped 0 (number_list_pieces numbers.now)) (length out.old) }
    ensures buffer { out.new ≡ buffer 0 (true) framed (wrapped 0 (number_list_pieces numbers.now)) out.old }
{
    let p = Form {
        numbers,
        ..Form::EMPTY
    };
    write_plain(0, true, 0, &p, framed, out)
}
