ghost use Rattle.std.specs.Prelude.{◌≡◌};
ghost use Rattle.serde_json.specs.View.{members_view};

use crate::moments::time;
use serde_json::{Map, Value};
use std::alloc::Global;
use std::cmp::Ordering;
use std::collections::btree_map::IntoIter;

/// The members of `time` that a walk in the order of their names has not passed.
#[derive(Drop)]
pub struct Times {
    ahead: Option<(String, Value)>,
    rest: IntoIter<String, Value, Global>,
}

impl Times {
    ghost use Rattle.rnv_release.specs.Times.{AreRising, begin_below, first_time, times_from, times_left, told_by};

    /// All of these members.
    pub fn new(times: Map<String, Value>) -> Times
        ensures all { times_left result ≡ told_by (members_view times.entries) }
        ensures rising { AreRising (times_left result) }
    {
        let mut rest = times.into_iter();
        let ahead = rest.next();
        Times { ahead, rest }
    }

    /// Passes those whose names are below this one.
    pub fn pass(&mut self, name: &str)
        ensures { times_left self.new ≡ times_from name.now (times_left self.old) }
    {
        while self.begin_below(name) {
            self.ahead = self.rest.next();
        }
    }

    /// The time that the first tells, if it has this name.
    pub fn first_time(&self, name: &str) -> Option<u64>
        ensures { result ≡ first_time name.now (times_left self.now) }
    {
        match &self.ahead {
            Some((ahead, value)) if name.cmp(ahead.as_str()) == Ordering::Equal => time(value),
            _ => None,
        }
    }

    // Whether the first name is below this one.
    fn begin_below(&self, name: &str) -> bool
        ensures { result ≡ begin_below name.now (times_left self.now) }
    {
        match &self.ahead {
            Some((ahead, _)) => name.cmp(ahead.as_str()) == Ordering::Greater,
            None => false,
        }
    }
}
