ghost use Rattle.std.specs.Prelude.{◌≡◌, ◌≤◌, ◌↔◌, min, length, take, IfOk, IsErr, IsErrOf, OnErr, OnOk};
ghost use Rattle.rnv_base.specs.Causes.{FailsBy, FaultsBy, Rose};
ghost use Rattle.rnv_base.specs.Turns.{IsListed, first_turn, next_turn};
ghost use Rattle.rnv_disk.specs.Images.{Image, part, put, On, Torn, CutTo, Same, IsHalf};
ghost use Rattle.rnv_disk.specs.Stops.{LeftNow, Elapses, IsDurable};
ghost use Rattle.rnv_disk.specs.Course.{seen_of, past_of, stopped_of, reads_as_image};
ghost use Rattle.rnv_disk.specs.declared.device.DiskError.TheVariants.{Failed as read_failed, Memory as no_memory};

use crate::history::History;
use crate::{Call, Content, Disk, DiskError, FileNo};
use rnv_base::{Bytes, Failed, Failing, List};
use std::alloc::{AllocError, Global};

/// Two files in memory. The calls whose numbers, from 0, are listed fail, and so does one whose
/// growth is refused. Half of the bytes of a write that is listed reach the file.
#[derive(Drop)]
pub struct MemDisk {
    history: History,
    failing: Failing,
    faults: u64,
}

impl MemDisk {
    /// A disk that holds this content, also after a stop, and whose calls with these numbers fail.
    /// Only memory can fail.
    pub fn new(alloc: Global, first: Content, failing: List<u64>) -> Result<MemDisk, AllocError>
        ensures seen { IfOk result (λ disk. ⟦<MemDisk as Disk>⟧.seen disk ≡ first) }
        ensures durable { IfOk result (λ disk. (c : Image) → LeftNow (⟦<MemDisk as Disk>⟧.past disk) c → c ≡ first) }
        ensures unfailed { IfOk result (λ disk. ⟦<MemDisk as Disk>⟧.faults disk ≡ 0) }
        ensures failing { IfOk result (λ disk. disk.failing ≡ first_turn failing) }
    {
        Ok(MemDisk {
            history: History::new(alloc, first)?,
            failing: Failing::new(failing),
            faults: 0,
        })
    }

    /// What a file holds.
    pub fn part(&self, file: FileNo) -> &[u8]
        ensures { result.now ≡ part file (⟦<MemDisk as Disk>⟧.seen self.now) }
    {
        self.history.part(file)
    }

    /// The writes, cuts and syncs that it has done, in their order. A listed write is there with
    /// half of its bytes, and another call that failed is not.
    pub fn calls(&self) -> &[Call]
        ensures { result.now ≡ self.now.history.calls }
    {
        self.history.calls()
    }

    /// What both files hold after a stop within the call of this place, from 0, in `calls`, or
    /// after all of them. The calls before it have happened; in the range that it leaves open, what
    /// a write covers or what lies past the length of a cut, are the given bytes, as far as they
    /// reach into it. With fewer bytes than a write has, the rest of its range is as it was. Only
    /// memory can fail.
    pub fn stopped(&self, alloc: Global, call: usize, torn: &[u8]) -> Result<Content, AllocError>
        ensures content { IfOk result (λ content. content ≡ stopped_of self.now.history call torn.now) }
        ensures image { IfOk result ((⟦<MemDisk as Disk>⟧.past self.now).left (min call (length self.now.history.calls))) }
    {
        self.history.stopped(alloc, call, torn)
    }

    // Counts a fault.
    fn fault(&mut self) -> Failed
        ensures history { self.new.history ≡ self.old.history }
        ensures failing { self.new.failing ≡ self.old.failing }
        ensures later { self.old.faults ≤ self.new.faults }
        ensures rose { Rose self.old.faults self.new.faults }
    {
        self.faults = self.faults.saturating_add(1);
        Failed
    }
}

impl Disk for MemDisk {
    ghost tells = { Unit {0} };

    ghost seen = { λ m. seen_of m.history };

    ghost past = { λ m. past_of m.history };

    ghost faults = { λ m. m.faults };

    ghost reads_now = { λ m t. reads_as_image m.history };

    ghost only_told = { λ m t c left. tt };

    /// `Failed` exactly where the call is listed. Nothing changes but the counts.
    fn read(&mut self, alloc: Global, file: FileNo) -> Result<Bytes, DiskError>
        ensures bytes { IfOk result (λ b. b.bytes ≡ part file (seen_of self.old.history)) }
        ensures same { OnOk result (seen_of self.new.history ≡ seen_of self.old.history) }
        ensures memory { IsErrOf result no_memory → seen_of self.new.history ≡ seen_of self.old.history }
        ensures stops { Elapses Same (past_of self.old.history) (past_of self.new.history) }
        ensures images { (c : Image) → LeftNow (past_of self.old.history) c → LeftNow (past_of self.new.history) c }
        ensures cause { FaultsBy self.old.faults self.new.faults result read_failed }
        ensures kept { self.new.history ≡ self.old.history }
        ensures listed { IsErrOf result read_failed ↔ IsListed self.old.failing }
        ensures turn { self.new.failing ≡ next_turn self.old.failing }
    {
        if self.failing.strikes() {
            let _ = self.fault();
            return Err(DiskError::Failed);
        }
        match Vec::from_slice(alloc, self.history.part(file)) {
            Ok(bytes) => Ok(Bytes::new(bytes)),
            Err(_) => Err(DiskError::Memory),
        }
    }

    /// A listed call fails, and half of its bytes reach the file, or none where their growth is
    /// refused. Another call that fails leaves everything but the counts.
    fn write_at(&mut self, file: FileNo, at: u64, bytes: &[u8]) -> Result<(), Failed>
        requires { at ≤ length (part file (seen_of self.old.history)) }
        ensures written { OnOk result (On file (λ old new. new ≡ put at bytes.now old) (seen_of self.old.history) (seen_of self.new.history)) }
        ensures stops { Elapses (On file (Torn at (length bytes.now))) (past_of self.old.history) (past_of self.new.history) }
        ensures cause { FailsBy self.old.faults self.new.faults result }
        ensures listed { IsListed self.old.failing → IsErr result }
        ensures half { IsListed self.old.failing → On file (λ old new. IsHalf at bytes.now old new) (seen_of self.old.history) (seen_of self.new.history) }
        ensures kept { ¬ IsListed self.old.failing → OnErr result (self.new.history ≡ self.old.history) }
        ensures turn { self.new.failing ≡ next_turn self.old.failing }
    {
        if self.failing.strikes() {
            let _ = self.history.write(file, at, &bytes[..bytes.len() / 2]);
            return Err(self.fault());
        }
        match self.history.write(file, at, bytes) {
            Ok(()) => Ok(()),
            Err(_) => Err(self.fault()),
        }
    }

    /// A listed call fails. One that fails leaves everything but the counts.
    fn cut(&mut self, file: FileNo, length: u64) -> Result<(), Failed>
        ensures cut { OnOk result (On file (λ old new. new ≡ take length old) (seen_of self.old.history) (seen_of self.new.history)) }
        ensures stops { Elapses (On file (CutTo length)) (past_of self.old.history) (past_of self.new.history) }
        ensures cause { FailsBy self.old.faults self.new.faults result }
        ensures kept { OnErr result (self.new.history ≡ self.old.history) }
        ensures listed { IsListed self.old.failing → IsErr result }
        ensures turn { self.new.failing ≡ next_turn self.old.failing }
    {
        if self.failing.strikes() || self.history.cut(file, length).is_err() {
            return Err(self.fault());
        }
        Ok(())
    }

    /// A listed call fails. One that fails leaves everything but the counts.
    fn sync(&mut self, file: FileNo) -> Result<(), Failed>
        ensures durable { OnOk result (IsDurable file (past_of self.new.history) (part file (seen_of self.old.history))) }
        ensures same { OnOk result (seen_of self.new.history ≡ seen_of self.old.history) }
        ensures stops { Elapses Same (past_of self.old.history) (past_of self.new.history) }
        ensures cause { FailsBy self.old.faults self.new.faults result }
        ensures kept { OnErr result (self.new.history ≡ self.old.history) }
        ensures listed { IsListed self.old.failing → IsErr result }
        ensures turn { self.new.failing ≡ next_turn self.old.failing }
    {
        if self.failing.strikes() || self.history.sync(file).is_err() {
            return Err(self.fault());
        }
        Ok(())
    }
}
