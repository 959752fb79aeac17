// The walk over the records of two files.
ghost use Rattle.std.specs.Prelude.{◌≡◌, List, ◌*◌, ◌≤◌, max, length};
ghost use Rattle.base_laws.specs.Base.{splice};
ghost use Rattle.file_format.specs.Record.{Record};
ghost use Rattle.file_format.specs.File.{all, records_of};
ghost use Rattle.file_compare.specs.Compare.{differences, entry_bytes};

use crate::pair::step_on;
use base_numbers::put;

// Stores the entries of two files from the buffer's start on, where the longer has `count` records. Inner: `compare_files` shows that
// the bytes are records, and the room.
pub fn lay_entries(a: &[u8], b: &[u8], count: usize, out: &mut [u8])
    requires { 8 * count ≤ length out.old }
    ensures { (rs qs : List Record) → records_of a.now ≡ all rs → records_of b.now ≡ all qs → count ≡ max (length rs) (length qs)
        → out.new ≡ splice out.old 0 (entry_bytes (differences rs qs)) }
{
    let mut i: usize = 0;
    let mut j: usize = 0;
    for k in 0..count {
        let step = step_on(a, i, b, j);
        put(out, 8 * k, step.entry);
        i = step.first;
        j = step.second;
    }
}
