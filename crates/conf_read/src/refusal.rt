// Why a line, or a whole configuration, is refused.
ghost use Rattle.std.specs.Prelude.{◌≡◌};
ghost use Rattle.conf_read.specs.Refusals.{number_of, malformed, bad_value, refused};

use conf_content::Malformed;
use conf_typed::BadValue;

#[derive(Clone, Copy, Debug, PartialEq, Eq)]
pub enum ConfRefusal {
    // 16: neither a section's header nor a setting
    Malformed,
    // 17: a setting in no section, or in an unknown one
    NoSection,
    // 18: a typed setting with a bad value
    BadValue,
}

// The refusal's number in document 02.
impl From<ConfRefusal> for u8 {
    ghost from_gives = { λ refusal n. n ≡ number_of refusal };

    fn from(refusal: ConfRefusal) -> u8 {
        match refusal {
            ConfRefusal::Malformed => 16,
            ConfRefusal::NoSection => 17,
            ConfRefusal::BadValue => 18,
        }
    }
}

impl From<Malformed> for ConfRefusal {
    ghost from_gives = { λ e refusal. refusal ≡ malformed };

    fn from(_e: Malformed) -> Self {
        Self::Malformed
    }
}

impl From<BadValue> for ConfRefusal {
    ghost from_gives = { λ e refusal. refusal ≡ bad_value };

    fn from(_e: BadValue) -> Self {
        Self::BadValue
    }
}

// A refusal with the number of its line: of a joined one, its first.
#[derive(Clone, Copy, Debug, PartialEq, Eq)]
pub struct BadLine {
    pub refusal: ConfRefusal,
    pub line: usize,
}

// Why a configuration is not read: its first bad line, or a list that has no room.
#[derive(Clone, Copy, Debug, PartialEq, Eq)]
pub enum ConfigError {
    Refused(BadLine),
    NoRoom,
}

impl From<BadLine> for ConfigError {
    ghost from_gives = { λ bad e. e ≡ refused bad };

    fn from(bad: BadLine) -> Self {
        Self::Refused(bad)
    }
}
