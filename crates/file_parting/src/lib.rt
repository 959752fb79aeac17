// Where two slices part.
#![tactic(auto)]

ghost use Rattle.std.specs.Prelude.{◌≡◌, true, ◌+◌, ◌≤◌, min, length, drop};
ghost use Rattle.file_parting.specs.Parting.{parting, Agree};

// Whether 16 bytes from a place on are the same. The loop is not left early, so the compiler makes one comparison of it; `==` on two parts
// of 16 bytes takes three times as long.
fn same_block(a: &[u8], b: &[u8], at: usize) -> bool
    requires { (at + 16 ≤ length a.now) × (at + 16 ≤ length b.now) }
    ensures { result ≡ true → Agree a.now b.now at 16 }
{
    let mut same = true;
    for k in 0..16 {
        same &= a[at + k] == b[at + k];
    }
    same
}

// The place where two slices part, looked for byte by byte from a place on.
fn parting_from(a: &[u8], b: &[u8], from: usize) -> usize
    requires { (from ≤ length a.now) × (from ≤ length b.now) }
    ensures { result ≡ from + parting (drop from a.now) (drop from b.now) }
{
    let end = a.len().min(b.len());
    for i in from..end {
        if a[i] != b[i] {
            return i;
        }
    }
    end
}

// Where two slices part, by 32 bytes at a time. The last 32 are laid over the end, so that some bytes are looked at a second time and none
// by itself; so a `while`, whose place is not the one of `chunks` or of a step of 32.
fn by_blocks(a: &[u8], b: &[u8], n: usize) -> usize
    requires { (32 ≤ n) × (n ≡ min (length a.now) (length b.now)) }
    ensures { result ≡ parting a.now b.now }
{
    let mut i: usize = 0;
    while i < n {
        let at = i.min(n - 32);
        let same = same_block(a, b, at) & same_block(a, b, at + 16);
        if !same {
            return parting_from(a, b, at);
        }
        i = at + 32;
    }
    n
}

// The same of fewer than 32: the first 16 bytes, and the last.
fn by_two_blocks(a: &[u8], b: &[u8], n: usize) -> usize
    requires { (16 ≤ n) × (n ≤ 32) × (n ≡ min (length a.now) (length b.now)) }
    ensures { result ≡ parting a.now b.now }
{
    let same = same_block(a, b, 0) & same_block(a, b, n - 16);
    if !same {
        return parting_from(a, b, 0);
    }
    n
}

// The first place where two slices differ, the end of the shorter one where it is the beginning of the other. Single bytes are looked at
// only where a block differs, and of fewer than 16.
pub fn first_difference(a: &[u8], b: &[u8]) -> usize
    ensures { result ≡ parting a.now b.now }
{
    let n = a.len().min(b.len());
    if 32 <= n {
        return by_blocks(a, b, n);
    }
    if 16 <= n {
        return by_two_blocks(a, b, n);
    }
    parting_from(a, b, 0)
}
