// Two records side by side.
ghost use Rattle.std.specs.Prelude.{◌≡◌, ◌≤◌, Some, length, eqb};
ghost use Rattle.base_laws.specs.Base.{pick, both};
ghost use Rattle.file_format.specs.File.{record_at, broken};
ghost use Rattle.file_format.specs.Head.{head_of};
ghost use Rattle.file_compare.specs.Compare.{between};
ghost use Rattle.file_compare.specs.Walk.{entry_number, record_with, step_of, step_on};

use file_format::head::{Head, head_at};
use file_parting::first_difference;

// An entry is one number: the flags in its upper half, the offset in the lower.
const UPPER: u64 = 0x1_0000_0000;

// A step of the walk: the entry's number, and the places past the two records.
#[derive(Clone, Copy)]
pub struct Step {
    pub entry: u64,
    pub first: usize,
    pub second: usize,
}

// 0 where two numbers are the same, else the flag.
#[tactic(auto, using(base_laws::proofs::Tests::tests))]
fn flag(x: u64, y: u64, bit: u64) -> u64
    ensures { (result ≡ pick (eqb x y) 0 bit) × (result ≤ bit) }
{
    if x == y { 0 } else { bit }
}

// Is a place the end of both.
#[tactic(auto, using(base_laws::proofs::Tests::tests))]
fn ends_both(at: usize, end: usize, end2: usize) -> bool
    ensures { result ≡ both (eqb at end) (eqb at end2) }
{
    at == end && at == end2
}

// The entry of two records by their heads and data.
fn entry_of(head: Head, contents: &[u8], head2: Head, contents2: &[u8]) -> u64
    requires { length contents.now ≤ 2097152 }
    ensures { result ≡ entry_number (between (record_with head.kind head.delay contents.now) (record_with head2.kind head2.delay contents2.now)) }
{
    let flags = flag(head.kind, head2.kind, 1) + flag(head.delay, head2.delay, 2);
    let at = first_difference(contents, contents2);
    if ends_both(at, contents.len(), contents2.len()) {
        return flags * UPPER;
    }
    (flags + 4) * UPPER + at as u64
}

// The step where a record stands in the first file, by its head.
#[tactic(auto, using(crate::proofs::Turns::beside_broken, crate::proofs::Turns::beside_whole, file_format::proofs::Heads::head_reach, file_format::proofs::Found::head_limit))]
fn step_beside(a: &[u8], i: usize, head: Head, b: &[u8], j: usize) -> Step
    requires { head_of (record_at a.now i) ≡ Some head }
    ensures { result ≡ step_on a.now i b.now j }
{
    let start = i + 11;
    let end = start + head.len;
    match head_at(b, j) {
        None => Step {
            entry: 8 * UPPER,
            first: end,
            second: j,
        },
        Some(head2) => {
            let start2 = j + 11;
            let end2 = start2 + head2.len;
            Step {
                entry: entry_of(head, &a[start..end], head2, &b[start2..end2]),
                first: end,
                second: end2,
            }
        }
    }
}

// The step where no record stands in the first file.
#[tactic(auto, using(crate::proofs::Turns::alone_broken, crate::proofs::Turns::alone_whole, file_format::proofs::Heads::head_reach))]
fn step_alone(i: usize, b: &[u8], j: usize) -> Step
    ensures { result ≡ step_of i broken j (record_at b.now j) }
{
    match head_at(b, j) {
        None => Step {
            entry: 16 * UPPER,
            first: i,
            second: j,
        },
        Some(head) => Step {
            entry: 16 * UPPER,
            first: i,
            second: j + 11 + head.len,
        },
    }
}

// The entry of the records that begin at i and j, and the places past them. Where a file has ended no record stands.
#[tactic(auto, using(crate::proofs::Turns::step_alone))]
pub fn step_on(a: &[u8], i: usize, b: &[u8], j: usize) -> Step
    ensures { result ≡ step_on a.now i b.now j }
{
    match head_at(a, i) {
        None => step_alone(i, b, j),
        Some(head) => step_beside(a, i, head, b, j),
    }
}
