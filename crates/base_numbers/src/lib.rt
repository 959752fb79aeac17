// Numbers laid into a lent buffer, eight bytes each, most significant first, and read again: how several numbers go to C and
// back, and how the header of a record is stored.
#![tactic(auto)]

ghost use Rattle.std.specs.Prelude.{◌≡◌, ◌+◌, ◌*◌, ◌≤◌, length, leb};
ghost use Rattle.base_laws.specs.Base.{pick, splice};
ghost use Rattle.base_numbers.specs.Eight.{eight, laid, number_at};

// Lays a number into a buffer, eight bytes, most significant first. Inner: it is for the crates above, as the stores of `write_pieces` are:
// they show that there is room for it.
pub fn put(out: &mut [u8], at: usize, v: u64)
    requires { at + 8 ≤ length out.old }
    ensures { out.new ≡ splice out.old at (eight v) }
{
    out[at..at + 8].copy_from_slice(&v.to_be_bytes());
}

// Lays numbers one after the other at the start of a buffer that has room for them; a shorter one is left as it is.
pub fn lay<const N: usize>(out: &mut [u8], numbers: &[u64; N]) -> bool
    ensures room { result ≡ leb (8 * N) (length out.old) }
    ensures buffer { out.new ≡ laid numbers.now out.old }
{
    if out.len() / 8 < N {
        return false;
    }
    for (i, &v) in numbers.iter().enumerate() {
        put(out, 8 * i, v);
    }
    true
}

// The number that the eight bytes from a place on are, most significant first; 0 where they are not there.
pub fn number_at(s: &[u8], at: usize) -> u64
    ensures { result ≡ pick (leb (at + 8) (length s.now)) (number_at s.now at) 0 }
{
    if s.len() < at {
        return 0;
    }
    match s[at..].first_chunk() {
        Some(bytes) => u64::from_be_bytes(*bytes),
        None => 0,
    }
}
