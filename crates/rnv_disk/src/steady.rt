ghost use Rattle.std.specs.Prelude.{◌≡◌, ◌≤◌, length, take, IfOk, IsErrOf, OnErr, OnOk};
ghost use Rattle.rnv_base.specs.Causes.{FailsBy, FaultsBy, Rose};
ghost use Rattle.rnv_disk.specs.Images.{Image, part, put, On, Torn, CutTo, Same};
ghost use Rattle.rnv_disk.specs.Stops.{LeftNow, Elapses, IsDurable};
ghost use Rattle.rnv_disk.specs.Course.{seen_of, past_of, reads_as_image};
ghost use Rattle.rnv_disk.specs.declared.device.DiskError.TheVariants.{Failed as read_failed, Memory as no_memory};

use crate::history::History;
use crate::{Content, Disk, DiskError, FileNo};
use rnv_base::{Bytes, Failed};
use std::alloc::{AllocError, Global};

/// Two files in memory. A call fails only where its growth is refused.
#[derive(Drop)]
pub struct SteadyDisk {
    history: History,
    faults: u64,
}

impl SteadyDisk {
    /// A disk that holds this content, also after a stop. Only memory can fail.
    pub fn new(alloc: Global, first: Content) -> Result<SteadyDisk, AllocError>
        ensures seen { IfOk result (λ disk. ⟦<SteadyDisk as Disk>⟧.seen disk ≡ first) }
        ensures durable { IfOk result (λ disk. (c : Image) → LeftNow (⟦<SteadyDisk as Disk>⟧.past disk) c → c ≡ first) }
        ensures unfailed { IfOk result (λ disk. ⟦<SteadyDisk as Disk>⟧.faults disk ≡ 0) }
    {
        Ok(SteadyDisk {
            history: History::new(alloc, first)?,
            faults: 0,
        })
    }

    /// What a file holds.
    pub fn part(&self, file: FileNo) -> &[u8]
        ensures { result.now ≡ part file (⟦<SteadyDisk as Disk>⟧.seen self.now) }
    {
        self.history.part(file)
    }

    // Counts a fault.
    fn fault(&mut self) -> Failed
        ensures history { self.new.history ≡ self.old.history }
        ensures later { self.old.faults ≤ self.new.faults }
        ensures rose { Rose self.old.faults self.new.faults }
    {
        self.faults = self.faults.saturating_add(1);
        Failed
    }
}

impl Disk for SteadyDisk {
    ghost tells = { Unit {0} };

    ghost seen = { λ s. seen_of s.history };

    ghost past = { λ s. past_of s.history };

    ghost faults = { λ s. s.faults };

    ghost reads_now = { λ s t. reads_as_image s.history };

    ghost only_told = { λ s t c left. tt };

    /// Never `Failed`. Nothing changes.
    fn read(&mut self, alloc: Global, file: FileNo) -> Result<Bytes, DiskError>
        ensures bytes { IfOk result (λ b. b.bytes ≡ part file (seen_of self.old.history)) }
        ensures same { OnOk result (seen_of self.new.history ≡ seen_of self.old.history) }
        ensures memory { IsErrOf result no_memory → seen_of self.new.history ≡ seen_of self.old.history }
        ensures stops { Elapses Same (past_of self.old.history) (past_of self.new.history) }
        ensures images { (c : Image) → LeftNow (past_of self.old.history) c → LeftNow (past_of self.new.history) c }
        ensures cause { FaultsBy self.old.faults self.new.faults result read_failed }
        ensures kept { self.new.history ≡ self.old.history }
        ensures never { ¬ IsErrOf result read_failed }
    {
        match Vec::from_slice(alloc, self.history.part(file)) {
            Ok(bytes) => Ok(Bytes::new(bytes)),
            Err(_) => Err(DiskError::Memory),
        }
    }

    /// Fails only where memory is refused, and then leaves everything but the count.
    fn write_at(&mut self, file: FileNo, at: u64, bytes: &[u8]) -> Result<(), Failed>
        requires { at ≤ length (part file (seen_of self.old.history)) }
        ensures written { OnOk result (On file (λ old new. new ≡ put at bytes.now old) (seen_of self.old.history) (seen_of self.new.history)) }
        ensures stops { Elapses (On file (Torn at (length bytes.now))) (past_of self.old.history) (past_of self.new.history) }
        ensures cause { FailsBy self.old.faults self.new.faults result }
        ensures kept { OnErr result (self.new.history ≡ self.old.history) }
    {
        if self.history.write(file, at, bytes).is_err() {
            return Err(self.fault());
        }
        Ok(())
    }

    /// Fails only where memory is refused, and then leaves everything but the count.
    fn cut(&mut self, file: FileNo, length: u64) -> Result<(), Failed>
        ensures cut { OnOk result (On file (λ old new. new ≡ take length old) (seen_of self.old.history) (seen_of self.new.history)) }
        ensures stops { Elapses (On file (CutTo length)) (past_of self.old.history) (past_of self.new.history) }
        ensures cause { FailsBy self.old.faults self.new.faults result }
        ensures kept { OnErr result (self.new.history ≡ self.old.history) }
    {
        if self.history.cut(file, length).is_err() {
            return Err(self.fault());
        }
        Ok(())
    }

    /// Fails only where memory is refused, and then leaves everything but the count.
    fn sync(&mut self, file: FileNo) -> Result<(), Failed>
        ensures durable { OnOk result (IsDurable file (past_of self.new.history) (part file (seen_of self.old.history))) }
        ensures same { OnOk result (seen_of self.new.history ≡ seen_of self.old.history) }
        ensures stops { Elapses Same (past_of self.old.history) (past_of self.new.history) }
        ensures cause { FailsBy self.old.faults self.new.faults result }
        ensures kept { OnErr result (self.new.history ≡ self.old.history) }
    {
        if self.history.sync(file).is_err() {
            return Err(self.fault());
        }
        Ok(())
    }
}
