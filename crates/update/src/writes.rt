// The writes of a plan, one after the other.
ghost use Rattle.std.specs.Prelude.{◌≡◌};
ghost use Rattle.std.specs.Iterator.{YieldsFirst, item_count};
ghost use Rattle.update.specs.Plans.{plan_writes, writes_left};

use crate::plan::Plan;
use crate::write::Write;

// The writes of a plan that are left, in their order.
#[derive(Drop)]
pub struct Writes<'a> {
    plan: &'a Plan<'a>,
    // How many were given. It counts by itself, since the writes are made one by one, when they are asked for.
    given: usize,
}

impl Plan<'_> {
    // All writes of the plan.
    pub fn writes(&self) -> Writes<'_>
        ensures { writes_left result ≡ plan_writes self.now }
    {
        Writes {
            plan: self,
            given: 0,
        }
    }
}

impl Iterator for Writes<'_> {
    type Item = Write;

    ghost next_gives = { YieldsFirst writes_left };

    ghost remaining = { item_count writes_left };

    fn next(&mut self) -> Option<Write> {
        let write = self.plan.write(self.given)?;
        self.given += 1;
        Some(write)
    }
}
