// Why a writer refuses.
ghost use Rattle.std.specs.Prelude.{◌≡◌};
ghost use Rattle.write_message.specs.Wrote.{number_of};

#[derive(Clone, Copy, Debug, PartialEq, Eq)]
pub enum WriteError {
    // its run's refusal, by the number that the run's reader gives
    Run(u8),
    // 7: a value out of its range, a member that is not the message's, or ends that do not fit
    Range,
    // 1: a message too long
    TooLong,
    // 12: no room
    NoRoom,
}

// The refusal's number in document 01.
impl From<WriteError> for u8 {
    ghost from_gives = { λ e n. n ≡ number_of e };

    fn from(error: WriteError) -> u8 {
        match error {
            WriteError::Run(refusal) => refusal,
            WriteError::Range => 7,
            WriteError::TooLong => 1,
            WriteError::NoRoom => 12,
        }
    }
}
