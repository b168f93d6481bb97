use std::alloc::AllocError;

/// Why a program gave no answer.
#[derive(Clone, Copy, Debug, PartialEq, Eq)]
pub enum SpawnError {
    /// A fault, which the spawner has counted.
    Failed,
    /// Want of memory.
    Memory,
}

impl From<AllocError> for SpawnError {
    ghost use Rattle.std.specs.Prelude.{◌≡◌};
    ghost use Rattle.rnv_tasks.specs.declared.error.SpawnError.TheVariants.{Memory};

    ghost from_gives = { λ _ e. e ≡ Memory };

    fn from(_: AllocError) -> SpawnError {
        SpawnError::Memory
    }
}

/// Why tasks came to no end.
#[derive(Clone, Copy, Debug, PartialEq, Eq)]
pub enum TaskError {
    /// A fault of the spawner, which it has counted.
    TaskFault,
    /// Want of memory.
    Memory,
}

impl From<AllocError> for TaskError {
    ghost use Rattle.std.specs.Prelude.{◌≡◌};
    ghost use Rattle.rnv_tasks.specs.declared.error.TaskError.TheVariants.{Memory};

    ghost from_gives = { λ _ e. e ≡ Memory };

    fn from(_: AllocError) -> TaskError {
        TaskError::Memory
    }
}
