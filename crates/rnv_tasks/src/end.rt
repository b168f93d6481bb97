use rnv_base::Bytes;
use std::marker::Model;

/// How a program ended: its exit status, which is 255 where a signal ended it, and the first 1,048,577
/// bytes of its standard output.
#[derive(Debug, Drop)]
pub struct TaskEnd {
    pub status: u32,
    pub output: Bytes,
}

impl Model for TaskEnd {
    ghost use Rattle.rnv_tasks.specs.Told.{End};

    ghost Value = { End };

    ghost view = { λ e. record { status = e.status; output = e.output.bytes } };
}
