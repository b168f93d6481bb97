ghost use Rattle.std.specs.Prelude.{◌≡◌, ◌≤◌};

// The numbers of an item: from the first on, by steps, to the last.
#[derive(Clone, Copy, Debug)]
pub struct Span {
    pub first: u8,
    pub last: u8,
    pub step: u32,
    ghost stepping: { 1 ≤ step },
}

impl Span {
    ghost use Rattle.rnv_schedule.specs.Schedules.{span_set};

    // Whether it has this number.
    pub fn has(&self, n: u8) -> bool
        ensures { result ≡ span_set self.now n }
    {
        self.first <= n && n <= self.last && u32::from(n - self.first) % self.step == 0
    }
}
