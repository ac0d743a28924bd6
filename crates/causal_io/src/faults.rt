// A count of failures.
ghost use Rattle.std.specs.Prelude.{◌≡◌, ◌≤◌, ◌-◌, ◌^◌};
ghost use Rattle.causal_io.specs.Causes.{risen};

/// How often something has failed. At the end of its type it stays.
#[derive(Clone, Copy)]
pub struct FaultCount {
    pub times: u64,
    pub ghost capped: { times ≤ 2 ^ 64 - 1 },
}

impl FaultCount {
    /// No failure.
    pub fn zero() -> FaultCount
        ensures { result.times ≡ 0 }
    {
        FaultCount { times: 0 }
    }

    /// One failure more.
    pub fn rise(&mut self)
        ensures { self.new.times ≡ risen self.old.times }
    {
        self.times = self.times.saturating_add(1);
    }
}
