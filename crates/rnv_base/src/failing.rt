ghost use Rattle.std.specs.Prelude.{◌≡◌, ◌↔◌, IsTrue};
ghost use Rattle.rnv_base.specs.Turns.{IsListed, first_turn, next_turn};

use crate::List;
use std::convert::AsSlice;
use std::marker::Model;

/// The calls of a fake that are to fail, by their numbers from 0, and how many calls there were.
#[derive(Drop)]
pub struct Failing {
    listed: List<u64>,
    calls: u64,
}

impl Model for Failing {
    ghost use Rattle.rnv_base.specs.Turns.{Turns};

    ghost Value = { Turns };

    ghost view = { λ f. record { listed = f.listed; calls = f.calls } };
}

impl Failing {
    /// The calls with these numbers are to fail, and there was none yet.
    pub fn new(listed: List<u64>) -> Failing
        ensures { result ≡ first_turn listed }
    {
        Failing { listed, calls: 0 }
    }

    /// Counts a call, and answers whether it is to fail.
    pub fn strikes(&mut self) -> bool
        ensures turn { IsTrue result ↔ IsListed self.old }
        ensures next { self.new ≡ next_turn self.old }
    {
        let call = self.calls;
        self.calls = call.saturating_add(1);
        self.listed.as_slice().contains(&call)
    }
}
