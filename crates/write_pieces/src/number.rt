// Varints and fields that hold a number.
ghost use Rattle.std.specs.Prelude.{◌≡◌, ◌+◌, ◌≤◌, length};
ghost use Rattle.write_forms.specs.Pieces.{varint, encode};
ghost use Rattle.base_copy.specs.Put.{Put};
ghost use Rattle.write_pieces.specs.Parts.{number_piece};

pub fn len_varint(v: u64) -> usize
    ensures { (result ≡ length (varint v)) × (result ≤ 10) }
{
    let mut x = v;
    // Counted by hand, here and where it is put: what is left of the number ends the loop, and no slice is gone over.
    let mut n: usize = 1;
    while 128 <= x {
        x /= 128;
        n += 1;
    }
    n
}

pub fn put_varint(out: &mut [u8], at: usize, v: u64) -> usize
    requires { at + length (varint v) ≤ length out.old }
    ensures { Put out.old at (varint v) out.new result }
{
    let mut x = v;
    let mut i = at;
    while 128 <= x {
        out[i] = (x % 128 + 128) as u8;
        x /= 128;
        i += 1;
    }
    out[i] = x as u8;
    i + 1
}

// Is a number left out: where it is 0 and not always written.
#[tactic(auto, unfolding(crate::specs::Parts::left_out))]
fn left_out(v: u64, always: bool) -> bool
    ensures { result ≡ Rattle.write_pieces.specs.Parts.left_out v always }
{
    !always && v == 0
}

#[tactic(auto, using(crate::proofs::Fields::number_out, crate::proofs::Fields::length_number))]
pub fn len_number(f: u8, v: u64, always: bool) -> usize
    ensures { (result ≡ length (encode (number_piece always f v))) × (result ≤ 20) }
{
    if left_out(v, always) {
        return 0;
    }
    len_varint(f as u64 * 8) + len_varint(v)
}

pub fn put_number(out: &mut [u8], at: usize, f: u8, v: u64, always: bool) -> usize
    requires { at + length (encode (number_piece always f v)) ≤ length out.old }
    ensures { Put out.old at (encode (number_piece always f v)) out.new result }
{
    if left_out(v, always) {
        return at;
    }
    let a = put_varint(out, at, f as u64 * 8);
    put_varint(out, a, v)
}
