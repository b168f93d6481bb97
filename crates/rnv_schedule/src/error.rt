use std::alloc::AllocError;

/// Why a text was not read as a schedule.
#[derive(Clone, Copy, Debug, PartialEq, Eq)]
pub enum ScheduleError {
    /// The text is outside the grammar of schedules.
    BadSchedule,
    /// Want of memory.
    Memory,
}

impl From<AllocError> for ScheduleError {
    ghost use Rattle.rnv_schedule.specs.declared.error.ScheduleError.TheVariants.{Memory};
    ghost use Rattle.std.specs.Prelude.{◌≡◌};

    ghost from_gives = { λ _ e. e ≡ Memory };

    fn from(_: AllocError) -> ScheduleError {
        ScheduleError::Memory
    }
}
