// The tests of the ranges that the writers share.
ghost use Rattle.std.specs.Prelude.{◌≡◌};
ghost use Rattle.write_pieces.specs.Parts.{stamp};
ghost use Rattle.write_message.specs.Fits;
ghost use Rattle.write_message.specs.Fits.{member_in, date_fits, moment_fits};

use wire_types::Time;

const NANOS_LIMIT: u64 = 999999999;

const SECONDS_LIMIT: u64 = 4294967295;

#[tactic(auto, unfolding(crate::specs::Fits::member_in))]
pub fn member_in(lo: u64, hi: u64, member: u64) -> bool
    ensures { result ≡ member_in lo hi member }
{
    member == 0 || (lo..=hi).contains(&member)
}

#[tactic(auto, unfolding(crate::specs::Fits::date_fits))]
pub fn date_fits(t: Time) -> bool
    ensures { result ≡ date_fits (stamp t.seconds t.nanos) }
{
    t.nanos <= NANOS_LIMIT
}

#[tactic(auto, unfolding(crate::specs::Fits::moment_fits))]
pub fn moment_fits(t: Time) -> bool
    ensures { result ≡ moment_fits (stamp t.seconds t.nanos) }
{
    t.seconds <= SECONDS_LIMIT && date_fits(t)
}

#[tactic(auto, unfolding(crate::specs::Fits::sized))]
pub fn sized(lo: usize, hi: usize, d: &[u8]) -> bool
    ensures { result ≡ Fits.sized lo hi d.now }
{
    (lo..=hi).contains(&d.len())
}
