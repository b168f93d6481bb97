use std::alloc::AllocError;

/// Why a value is none of an option.
#[derive(Clone, Copy, Debug, PartialEq, Eq)]
pub enum Wrong {
    /// It is of another kind.
    WrongKind,
    /// It is of the kind, and not among the values of the option.
    BadValue,
    /// Want of memory.
    Memory,
}

impl From<AllocError> for Wrong {
    ghost use Rattle.rnv_options.specs.declared.error.Wrong.TheVariants.{Memory};
    ghost use Rattle.std.specs.Prelude.{◌≡◌};

    ghost from_gives = { λ _ e. e ≡ Memory };

    fn from(_: AllocError) -> Wrong {
        Wrong::Memory
    }
}
