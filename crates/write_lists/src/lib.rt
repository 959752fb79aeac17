// Lists of strings, lent as joined bytes and ends, and packed numbers. Inner, as the functions of `write_pieces` are, but for `ends_fit`
// and `Strings::new`, which ask nothing.
#![tactic(auto)]

ghost use Rattle.std.specs.Prelude.{◌≡◌, ◌+◌, ◌≤◌, false, not, length, is_some, IfSome};
ghost use Rattle.write_forms.specs.Pieces.{elements, text, encode, packed};
ghost use Rattle.write_forms.specs.Draft.{cut_at, bad_ends};
ghost use Rattle.base_copy.specs.Put.{Put};
ghost use Rattle.write_pieces.specs.Parts.{Like};

use base_copy::put_raw;
use write_pieces::number::{len_varint, put_varint};
use write_pieces::part::{MESSAGE_LIMIT, TOO_LONG, len_head, put_head};

// Strings, lent as joined bytes and the place where each one ends.
#[derive(Clone, Copy)]
pub struct Strings<'a> {
    pub joined: &'a [u8],
    pub ends: &'a [usize],
    ghost fit: { bad_ends (length joined.now) 0 ends.now ≡ false },
}

impl<'a> Strings<'a> {
    pub const NONE: Strings<'static> = Strings {
        joined: &[],
        ends: &[],
    };

    // None where the ends are bad.
    pub fn new(joined: &'a [u8], ends: &'a [usize]) -> Option<Strings<'a>>
        ensures fit { is_some result ≡ not (bad_ends (length joined.now) 0 ends.now) }
        ensures parts { IfSome result (λ s. (s.joined.now ≡ joined.now) × (s.ends.now ≡ ends.now)) }
    {
        if ends_fit(joined.len(), ends) {
            Some(Strings { joined, ends })
        } else {
            None
        }
    }
}

// Are the ends of a list's elements good: they don't fall, and the last one is the size of the joined bytes.
pub fn ends_fit(size: usize, ends: &[usize]) -> bool
    ensures { result ≡ not (bad_ends size 0 ends.now) }
{
    let mut a: usize = 0;
    for &e in ends {
        if e < a {
            return false;
        }
        a = e;
    }
    a == size
}

pub fn len_list(f: u8, list: &Strings<'_>) -> usize
    ensures { (Like result (elements f (cut_at list.now.joined.now 0 list.now.ends.now))) × (result ≤ 2097153) }
{
    let mut a: usize = 0;
    let mut n: usize = 0;
    for &e in list.ends {
        if MESSAGE_LIMIT < e - a {
            return TOO_LONG;
        }
        n += len_head(f, e - a) + (e - a);
        if MESSAGE_LIMIT < n {
            return TOO_LONG;
        }
        a = e;
    }
    n
}

pub fn put_list(out: &mut [u8], at: usize, f: u8, list: &Strings<'_>) -> usize
    requires { at + length (elements f (cut_at list.now.joined.now 0 list.now.ends.now)) ≤ length out.old }
    ensures { Put out.old at (elements f (cut_at list.now.joined.now 0 list.now.ends.now)) out.new result }
{
    let mut a: usize = 0;
    let mut o = at;
    for &e in list.ends {
        let p = put_head(out, o, f, e - a);
        o = put_raw(out, p, &list.joined[a..e]);
        a = e;
    }
    o
}

// ---- packed numbers

fn len_packed(numbers: &[u64]) -> usize
    ensures { (Like result (packed numbers.now)) × (result ≤ 2097153) }
{
    let mut n: usize = 0;
    for &v in numbers {
        n += len_varint(v);
        if MESSAGE_LIMIT < n {
            return TOO_LONG;
        }
    }
    n
}

fn put_packed(out: &mut [u8], at: usize, numbers: &[u64]) -> usize
    requires { at + length (packed numbers.now) ≤ length out.old }
    ensures { Put out.old at (packed numbers.now) out.new result }
{
    let mut o = at;
    for &v in numbers {
        o = put_varint(out, o, v);
    }
    o
}

// The field `numbers` of a NumberList, its packed bytes, left out where there are none.
pub fn len_numbers(numbers: &[u64]) -> usize
    ensures { (Like result (encode (text 1 (packed numbers.now)))) × (result ≤ 2097173) }
{
    let n = len_packed(numbers);
    if n == 0 {
        return 0;
    }
    len_head(1, n) + n
}

pub fn put_numbers(out: &mut [u8], at: usize, numbers: &[u64]) -> usize
    requires numbers_len_bound { length (packed numbers.now) ≤ 2097152 }
    requires numbers_in_bounds { at + length (encode (text 1 (packed numbers.now))) ≤ length out.old }
    ensures { Put out.old at (encode (text 1 (packed numbers.now))) out.new result }
{
    let n = len_packed(numbers);
    if n == 0 {
        return at;
    }
    let a = put_head(out, at, 1, n);
    put_packed(out, a, numbers)
}
