// What C is to call on a configuration. Nothing exports it to C yet: the header that declares it is on the shelf (docs/shelf).
#![tactic(auto)]

ghost use Rattle.std.specs.Prelude.{◌≡◌};
ghost use Rattle.base_numbers.specs.Eight.{laid};
ghost use Rattle.c_config.specs.Numbers.{seven_of, answer_with, out_with, numbers_with};

use base_numbers::lay;
use conf_read::refusal::ConfigError;
use conf_read::values::{Values, default_values};
use conf_read::{Config, read_config};

// Seven numbers. Inner: sudolog_read_config tests the room, and without it nothing is laid.
fn put_seven(out: &mut [u8], line: usize, size: usize, v: Values)
    ensures { out.new ≡ laid (seven_of line size v) out.old }
{
    lay(
        out,
        &[
            line as u64,
            size as u64,
            v.server.timeout,
            u64::from(v.server.keepalive),
            v.relay.timeout,
            u64::from(v.relay.keepalive),
            v.maxseq,
        ],
    );
}

// Reads a configuration: lists its settings and lays seven numbers.
pub fn sudolog_read_config(text: &[u8], out: &mut [u8], numbers: &mut [u8]) -> u8
    ensures answer { result ≡ answer_with text.now out.old numbers.old }
    ensures out { out.new ≡ out_with text.now out.old numbers.old }
    ensures numbers { numbers.new ≡ numbers_with text.now out.old numbers.old }
{
    if numbers.len() < 56 {
        return 12;
    }
    match read_config(text, out) {
        Ok(read) => {
            put_seven(numbers, 0, read.size, read.values);
            0
        }
        Err(ConfigError::Refused(bad)) => {
            put_seven(numbers, bad.line, 0, default_values());
            u8::from(bad.refusal)
        }
        Err(ConfigError::NoRoom) => 12,
    }
}
