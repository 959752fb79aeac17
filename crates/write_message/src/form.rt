// The one form from which every message is written: its fields at each number, in rising number. What a message does not have
// is left out by its value: a number that is 0, no bytes, the field number 0. Lengths and puts are inner: `crate::write` shows what they require.
ghost use Rattle.std.specs.Prelude.{◌≡◌, ◌+◌, ◌≤◌, length};
ghost use Rattle.wire_message.specs.Message.{Bytes};
ghost use Rattle.write_forms.specs.Pieces.{encode_all};
ghost use Rattle.base_copy.specs.Put.{Put};
ghost use Rattle.write_pieces.specs.Parts.{Like};
ghost use Rattle.write_message.specs.Form.{first_pieces, middle, last_pieces, form_pieces};

use base_copy::put_raw;
use wire_types::Time;
use write_lists::{Strings, len_list, len_numbers, put_list, put_numbers};
use write_pieces::number::{len_number, put_number};
use write_pieces::part::{len_cover, len_raw, len_text, len_time, put_cover, put_text, put_time};

#[derive(Clone, Copy)]
pub struct Form<'a> {
    // the field number of its TimeSpec
    pub time: u8,
    pub stamp: Time,
    // the numbers at 1 to 4; the one at 2 may be one that is always written
    pub one: u64,
    pub two: u64,
    pub always: bool,
    pub three: u64,
    pub four: u64,
    // the texts at 1, 2, 4 and 5
    pub text_one: &'a [u8],
    pub text_two: &'a [u8],
    pub text_four: &'a [u8],
    pub text_five: &'a [u8],
    // packed numbers, and bytes as they are lent: a run of entries or a string
    pub numbers: &'a [u64],
    pub lent: &'a [u8],
    // the field number of a list's elements, and of the message or the bytes around the list, the numbers or the bytes
    pub list: u8,
    pub inner: u8,
}

impl<'a> Form<'a> {
    // A message with none of these fields.
    pub const EMPTY: Form<'static> = Form {
        time: 0,
        stamp: Time {
            seconds: 0,
            nanos: 0,
        },
        one: 0,
        two: 0,
        always: false,
        three: 0,
        four: 0,
        text_one: &[],
        text_two: &[],
        text_four: &[],
        text_five: &[],
        numbers: &[],
        lent: &[],
        list: 0,
        inner: 0,
    };
}

// ---- lengths

fn len_first(p: &Form<'_>) -> usize
    ensures { (Like result (encode_all (first_pieces p.now))) × (result ≤ 5000000) }
{
    len_text(1, p.text_one)
        + (len_time(p.time, p.stamp)
            + (len_number(1, p.one, false)
                + (len_number(2, p.two, p.always) + len_text(2, p.text_two))))
}

pub fn len_middle(p: &Form<'_>, list: &Strings<'_>) -> usize
    ensures { (Like result (middle p.now list.now.joined.now list.now.ends.now)) × (result ≤ 10000000) }
{
    len_list(p.list, list) + (len_numbers(p.numbers) + len_raw(p.lent))
}

fn len_last(p: &Form<'_>) -> usize
    ensures { (Like result (encode_all (last_pieces p.now))) × (result ≤ 5000000) }
{
    len_number(3, p.three, false)
        + (len_text(4, p.text_four) + (len_number(4, p.four, false) + len_text(5, p.text_five)))
}

// The whole, by the length n of the middle.
pub fn len_form(p: &Form<'_>, n: usize) -> usize
    requires { n ≤ 10000000 }
    ensures { ((m : Bytes) → Like n m → Like result (encode_all (form_pieces p.now m))) × (result ≤ 30000000) }
{
    len_first(p) + (len_cover(p.inner, n) + n + len_last(p))
}

// ---- puts

fn put_first(out: &mut [u8], at: usize, p: &Form<'_>) -> usize
    requires { at + length (encode_all (first_pieces p.now)) ≤ length out.old }
    ensures { Put out.old at (encode_all (first_pieces p.now)) out.new result }
{
    let a = put_text(out, at, 1, p.text_one);
    let b = put_time(out, a, p.time, p.stamp);
    let c = put_number(out, b, 1, p.one, false);
    let d = put_number(out, c, 2, p.two, p.always);
    put_text(out, d, 2, p.text_two)
}

fn put_middle(out: &mut [u8], at: usize, p: &Form<'_>, list: &Strings<'_>) -> usize
    requires middle_len_bound { length (middle p.now list.now.joined.now list.now.ends.now) ≤ 2097152 }
    requires middle_in_bounds { at + length (middle p.now list.now.joined.now list.now.ends.now) ≤ length out.old }
    ensures { Put out.old at (middle p.now list.now.joined.now list.now.ends.now) out.new result }
{
    let a = put_list(out, at, p.list, list);
    let b = put_numbers(out, a, p.numbers);
    put_raw(out, b, p.lent)
}

fn put_last(out: &mut [u8], at: usize, p: &Form<'_>) -> usize
    requires { at + length (encode_all (last_pieces p.now)) ≤ length out.old }
    ensures { Put out.old at (encode_all (last_pieces p.now)) out.new result }
{
    let a = put_number(out, at, 3, p.three, false);
    let b = put_text(out, a, 4, p.text_four);
    let c = put_number(out, b, 4, p.four, false);
    put_text(out, c, 5, p.text_five)
}

// The whole, by the length n of the middle.
pub fn put_form(out: &mut [u8], at: usize, p: &Form<'_>, list: &Strings<'_>, n: usize) -> usize
    requires n_value { (n ≡ length (middle p.now list.now.joined.now list.now.ends.now)) × (n ≤ 2097152) }
    requires form_in_bounds { at + length (encode_all (form_pieces p.now (middle p.now list.now.joined.now list.now.ends.now))) ≤ length out.old }
    ensures { Put out.old at (encode_all (form_pieces p.now (middle p.now list.now.joined.now list.now.ends.now))) out.new result }
{
    let a = put_first(out, at, p);
    let b = put_cover(out, a, p.inner, n);
    let c = put_middle(out, b, p, list);
    put_last(out, c, p)
}
