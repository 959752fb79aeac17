// Copies of bytes into an area that the caller lends.
#![tactic(auto)]

ghost use Rattle.std.specs.Prelude.{◌≡◌, ◌+◌, ◌≤◌, length};
ghost use Rattle.base_copy.specs.Copy.{fits, copied};
ghost use Rattle.base_copy.specs.Put.{Put};

// Copies bytes into the area from `at` on, and says so; where they do not fit the area stays as it is.
pub fn copy_into(area: &mut [u8], at: usize, bytes: &[u8]) -> bool
    ensures answer { result ≡ fits area.old at bytes.now }
    ensures area { area.new ≡ copied area.old at bytes.now }
{
    if area.len() < at || area.len() - at < bytes.len() {
        return false;
    }
    area[at..at + bytes.len()].copy_from_slice(bytes);
    true
}

// The same where there is room, as callers put bytes one after the other: returns the place after them. Inner: it is for them, who show the
// room; a host copies by `copy_into`, which requires nothing.
pub fn put_raw(out: &mut [u8], at: usize, d: &[u8]) -> usize
    requires { at + length d.now ≤ length out.old }
    ensures { Put out.old at d.now out.new result }
{
    let end = at + d.len();
    out[at..end].copy_from_slice(d);
    end
}
