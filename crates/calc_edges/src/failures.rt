ghost use Rattle.std.specs.Prelude.{◌≡◌};
ghost use Rattle.calc_edges.specs.Faults.{failed, no_failures, passed};

/// How many calls have failed, up to 2^64 - 1, and whether the last one did.
#[derive(Clone, Copy, Debug)]
pub struct Failures {
    pub count: u64,
    pub at_last: bool,
}

impl Failures {
    /// Before the first call.
    pub fn new() -> Failures
        ensures { result ≡ no_failures }
    {
        Failures {
            count: 0,
            at_last: false,
        }
    }

    /// A call did not fail.
    pub fn pass(&mut self)
        ensures { self.new ≡ passed self.old }
    {
        self.at_last = false;
    }

    /// A call failed.
    pub fn fail(&mut self)
        ensures { self.new ≡ failed self.old }
    {
        self.count = self.count.saturating_add(1);
        self.at_last = true;
    }
}
