ghost use Rattle.std.specs.Prelude.{◌≤◌};
ghost use Rattle.rnv_base.specs.Causes.{Rose};

use crate::notes::note;
use rnv_base::{Failed, Sink};
use std::io;
use std::io::{Eprint, ErrorKind, Write};

/// A stream of the system. It tells nothing of what it holds, and counts each call that failed.
#[derive(Drop)]
pub struct StreamSink<R: Eprint + Drop, W: Write + Drop> {
    rt: R,
    inner: W,
    name: &'static str,
    faults: u64,
}

impl<R: Eprint + Drop, W: Write + Drop> StreamSink<R, W> {
    /// The sink that writes to this stream. Errors are noted under its name, with this runtime.
    pub fn new(rt: R, inner: W, name: &'static str) -> StreamSink<R, W> {
        StreamSink {
            rt,
            inner,
            name,
            faults: 0,
        }
    }

    // Counts an error of the system, and notes it.
    fn fault(&mut self, error: &io::Error) -> Failed
        ensures later { self.old.faults ≤ self.new.faults }
        ensures rose { Rose self.old.faults self.new.faults }
    {
        note(&self.rt, self.name, error);
        self.faults = self.faults.saturating_add(1);
        Failed
    }
}

impl<R: Eprint + Drop, W: Write + Drop> Sink for StreamSink<R, W> {
    ghost use Rattle.std.specs.Prelude.{[]};

    ghost tells = { ⊥ };

    ghost held = { λ _. [] };

    ghost faults = { λ s. s.faults };

    // A stream that takes nothing of a piece that is not empty has failed.
    fn write(&mut self, bytes: &[u8]) -> Result<usize, Failed> {
        match self.inner.write(bytes) {
            Ok(count) if count > 0 || bytes.is_empty() => Ok(count),
            Ok(_) => Err(self.fault(&io::Error::from(ErrorKind::WriteZero))),
            Err(error) => Err(self.fault(&error)),
        }
    }
}
