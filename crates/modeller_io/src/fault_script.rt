// Which calls of an object in memory fail.
ghost use Rattle.std.specs.Prelude.{◌≡◌, ◌↔◌, Contains, IsErr, IsTrue, OnErr, OnOk};
ghost use Rattle.modeller_io.specs.Count.{raised};

use crate::Failed;

// The numbers of the calls that fail, from 1, and the counts of calls and of faults.
#[derive(Drop)]
pub(crate) struct FaultScript {
    pub(crate) calls: u64,
    pub(crate) faults: u64,
    pub(crate) fails: Vec<u64>,
}

impl FaultScript {
    // A script before the first call.
    pub(crate) fn new(fails: Vec<u64>) -> FaultScript
        ensures { result ≡ record { calls = 0; faults = 0; fails = fails } }
    {
        FaultScript {
            calls: 0,
            faults: 0,
            fails,
        }
    }

    // Counts a call, and a fault where the call is listed.
    pub(crate) fn count_call(&mut self) -> Result<(), Failed>
        ensures listed { IsErr result ↔ Contains self.old.fails.items (raised self.old.calls 1) }
        ensures ok { OnOk result (self.new ≡ record self.old { calls = raised self.old.calls 1 }) }
        ensures err { OnErr result (self.new ≡ record self.old {
          calls = raised self.old.calls 1;
          faults = raised self.old.faults 1;
        }) }
    {
        self.calls = self.calls.saturating_add(1);
        if is_listed(&self.fails, self.calls) {
            self.faults = self.faults.saturating_add(1);
            return Err(Failed);
        }
        Ok(())
    }
}

// Whether the call of this number is listed.
fn is_listed(fails: &[u64], call: u64) -> bool
    ensures { IsTrue result ↔ Contains fails.now call }
{
    fails.contains(&call)
}
