// Counts that stay at the greatest number, and plans of which calls are to fail.
ghost use Rattle.std.specs.Prelude.{◌≡◌, ◌≤◌, ◌==◌};
ghost use Rattle.std.specs.List.{list_any};
ghost use Rattle.exo_cli.specs.Outside.Outside.{counted};

/// A count that stays at the greatest number of 64 bits once it is there.
#[derive(Clone, Copy, PartialEq, Eq)]
pub(crate) struct Count(pub u64);

impl Count {
    pub(crate) const NONE: Count = Count(0);

    pub(crate) fn add_one(&mut self)
        ensures counted { self.new.0 ≡ counted self.old.0 }
        ensures never_falls { self.old.0 ≤ self.new.0 }
    {
        if self.0 < u64::MAX {
            self.0 += 1;
        }
    }
}

/// Which calls are to fail, by their numbers from 0, and how many calls and faults there were.
#[derive(Drop)]
pub(crate) struct Plan {
    pub fail: Vec<u64>,
    pub calls: Count,
    pub faults: Count,
}

impl Plan {
    pub(crate) fn new(fail: Vec<u64>) -> Plan
        ensures plan { result.fail ≡ fail }
        ensures calls { result.calls.0 ≡ 0 }
        ensures faults { result.faults.0 ≡ 0 }
    {
        Plan {
            fail,
            calls: Count::NONE,
            faults: Count::NONE,
        }
    }

    /// Counts a call, and says whether it is to fail.
    pub(crate) fn next_fails(&mut self) -> bool
        ensures answer { result ≡ list_any (λ n. n == self.old.calls.0) self.old.fail.items }
        ensures calls { self.new.calls.0 ≡ counted self.old.calls.0 }
        ensures faults { self.new.faults ≡ self.old.faults }
        ensures plan { self.new.fail ≡ self.old.fail }
    {
        let number = self.calls.0;
        self.calls.add_one();
        self.fail.contains(&number)
    }
}
