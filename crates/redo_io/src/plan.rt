// Which calls of something in memory fail.
ghost use Rattle.std.specs.Prelude.{◌≡◌, ◌≤◌, IsTrue};
ghost use Rattle.model_base.specs.{HasRisen};
ghost use Rattle.redo_io.specs.Plan.{fails_now, plan_after_call, unused, with_fault};

use std::marker::Model;

/// The numbers of the calls that fail, counted from 0, and how many calls and faults there were. Both counts stand still
/// at the last value that 64 bits hold.
#[derive(Debug, Drop)]
pub struct Plan {
    failing: Vec<u64>,
    calls: u64,
    faults: u64,
}

impl Model for Plan {
    ghost use Rattle.redo_io.specs.Plan.{Planned};

    ghost Value = { Planned };

    ghost view = { λ plan. record { failing = plan.failing.items; calls = plan.calls; faults = plan.faults } };
}

impl Plan {
    /// A plan that fails these calls.
    pub fn new(failing: Vec<u64>) -> Self
        ensures { result ≡ unused failing.items }
    {
        Plan {
            failing,
            calls: 0,
            faults: 0,
        }
    }

    /// Counts a call, and says whether it fails, which is a fault.
    pub fn fails(&mut self) -> bool
        ensures named { result ≡ fails_now self.old }
        ensures after { self.new ≡ plan_after_call self.old }
        ensures later { self.old.faults ≤ self.new.faults }
        ensures cause { IsTrue result → HasRisen self.old.faults self.new.faults }
    {
        let fails = self.failing.contains(&self.calls);
        self.calls = self.calls.saturating_add(1);
        if fails {
            self.faults = self.faults.saturating_add(1);
        }
        fails
    }

    /// Counts a fault that the plan doesn't name.
    pub fn add_fault(&mut self)
        ensures after { self.new ≡ with_fault self.old }
        ensures later { self.old.faults ≤ self.new.faults }
        ensures cause { HasRisen self.old.faults self.new.faults }
    {
        self.faults = self.faults.saturating_add(1);
    }
}
