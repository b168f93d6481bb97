ghost use Rattle.std.specs.Prelude.{◌≡◌, ◌≤◌, ◌++◌, ◌∷◌, [], IsTrue, min, length, take, reverse, IfOk, OnOk, OnErr};
ghost use Rattle.rnv_disk.specs.Images.{part, put, On, Torn, CutTo, Same};
ghost use Rattle.rnv_disk.specs.Stops.{Elapses, IsDurable};
ghost use Rattle.rnv_disk.specs.Course.{after, after_part, fits, seen_of, past_of, stopped_of};

use crate::call::{apply, apply_torn};
use crate::{Call, Content, FileNo};
use rnv_base::{Bytes, Share};
use std::alloc::{AllocError, Global};
use std::convert::AsSlice;
use std::marker::Model;

/// What two files in memory held at first, what they hold now, and the calls that were done
/// between.
#[derive(Drop)]
pub struct History {
    alloc: Global,
    first: Content,
    current: Content,
    calls: Vec<Call>,
}

impl Model for History {
    ghost use Rattle.std.specs.Prelude.{◌≡◌, IsTrue, reverse};
    ghost use Rattle.rnv_disk.specs.Course.{Course, after, all_fit};

    ghost Value = { Course };

    ghost view = { λ h. record { first = h.first; calls = h.calls.items } };

    ghost invariant = { λ h. (h.current ≡ after h.first (reverse h.calls.items)) × IsTrue (all_fit h.first (reverse h.calls.items)) };
}

impl History {
    /// This content, on which nothing was done. Only memory can fail.
    pub fn new(alloc: Global, first: Content) -> Result<History, AllocError>
        ensures { IfOk result (λ history. history ≡ record { first = first; calls = [] }) }
    {
        Ok(History {
            alloc,
            current: first.share(alloc)?,
            first,
            calls: Vec::new(alloc),
        })
    }

    /// What a file holds now.
    pub fn part(&self, file: FileNo) -> &[u8]
        ensures { result.now ≡ part file (seen_of self.now) }
    {
        self.current.part(file)
    }

    /// The calls, in the order in which they were done.
    pub fn calls(&self) -> &[Call]
        ensures { result.now ≡ self.now.calls }
    {
        &self.calls
    }

    // Does a call.
    fn note(&mut self, call: Call) -> Result<(), AllocError>
        requires { IsTrue (fits call (seen_of self.old)) }
        ensures ok { OnOk result (self.new ≡ record self.old { calls = self.old.calls ++ call ∷ [] }) }
        ensures err { OnErr result (self.new ≡ self.old) }
    {
        self.calls.reserve(1)?;
        apply(&mut self.current, &call)?;
        self.calls.push_reserved(call);
        Ok(())
    }

    /// Writes bytes over those from an offset on, and past the end. Only memory can fail, and then
    /// nothing changes.
    pub fn write(&mut self, file: FileNo, at: u64, bytes: &[u8]) -> Result<(), AllocError>
        requires { at ≤ length (part file (seen_of self.old)) }
        ensures written { OnOk result (On file (λ old new. new ≡ put at bytes.now old) (seen_of self.old) (seen_of self.new)) }
        ensures stops { Elapses (On file (Torn at (length bytes.now))) (past_of self.old) (past_of self.new) }
        ensures err { OnErr result (self.new ≡ self.old) }
    {
        let kept = Bytes::new(Vec::from_slice(self.alloc, bytes)?);
        self.note(Call::Write(file, at, kept))
    }

    /// Cuts a file to a length. Only memory can fail, and then nothing changes.
    pub fn cut(&mut self, file: FileNo, most: u64) -> Result<(), AllocError>
        ensures cut { OnOk result (On file (λ old new. new ≡ take most old) (seen_of self.old) (seen_of self.new)) }
        ensures stops { Elapses (On file (CutTo most)) (past_of self.old) (past_of self.new) }
        ensures err { OnErr result (self.new ≡ self.old) }
    {
        self.note(Call::Cut(file, most))
    }

    /// After it, a stop leaves of this file what it holds. Only memory can fail, and then nothing
    /// changes.
    pub fn sync(&mut self, file: FileNo) -> Result<(), AllocError>
        ensures durable { OnOk result (IsDurable file (past_of self.new) (part file (seen_of self.old))) }
        ensures same { seen_of self.new ≡ seen_of self.old }
        ensures stops { Elapses Same (past_of self.old) (past_of self.new) }
        ensures err { OnErr result (self.new ≡ self.old) }
    {
        self.note(Call::Sync(file))
    }

    /// What both files hold after a stop within the call of this place, from 0, or after all calls,
    /// with these bytes in the range that the call leaves open. Only memory can fail.
    pub fn stopped(&self, alloc: Global, call: usize, torn: &[u8]) -> Result<Content, AllocError>
        ensures content { IfOk result (λ content. content ≡ stopped_of self.now call torn.now) }
        ensures image { IfOk result ((past_of self.now).left (min call (length self.now.calls))) }
    {
        let calls = self.calls.as_slice();
        let count = calls.len().min(call);
        stopped_in(alloc, &self.first, &calls[..count], &calls[count..], torn)
    }
}

// What both files hold after these calls and a stop within the first of the later ones.
fn stopped_in(
    alloc: Global,
    first: &Content,
    calls: &[Call],
    later: &[Call],
    torn: &[u8],
) -> Result<Content, AllocError>
    ensures { IfOk result (λ content. content ≡ after_part first.now (reverse calls.now) later.now torn.now) }
{
    let mut content = replayed(alloc, first, calls)?;
    if let [call, ..] = later {
        apply_torn(&mut content, call, torn)?;
    }
    Ok(content)
}

// What both files hold after these calls, the oldest first.
fn replayed(alloc: Global, first: &Content, calls: &[Call]) -> Result<Content, AllocError>
    ensures { IfOk result (λ content. content ≡ after first.now (reverse calls.now)) }
{
    let mut content = first.share(alloc)?;
    for call in calls {
        apply(&mut content, call)?;
    }
    Ok(content)
}
