// The stages of a run: a running plan, and the ticket that is held beside the host until the run is finished.
ghost use Rattle.std.specs.Prelude.{◌≡◌};
ghost use Rattle.executor.specs.Stages.{leases_on, lines_of};

use checking::stages::CheckedPlan;

// A plan that was started, and the place of the line that comes next.
#[derive(Drop)]
pub struct RunningPlan<'a> {
    pub(crate) plan: CheckedPlan<'a>,
    pub(crate) place: usize,
}

impl<'a> RunningPlan<'a> {
    // Its lines.
    pub fn lines(&self) -> &'a [u32]
        ensures { result.now ≡ lines_of self.now }
    {
        self.plan.lines()
    }

    // The place of the line that comes next.
    pub fn place(&self) -> usize
        ensures { result ≡ self.now.place }
    {
        self.place
    }
}

// What a started run owes to `finish`: the binds that were done, and the bindings that ended. It cannot be let go.
pub struct Ticket {
    pub(crate) made: u64,
    pub(crate) ended: u64,
}

impl Ticket {
    // The leases: binds done less bindings ended.
    pub fn leases(&self) -> u64
        ensures { result ≡ leases_on self.now }
    {
        self.made.saturating_sub(self.ended)
    }
}

// Where a run was finished: its place, and the leases.
#[derive(Clone, Copy, PartialEq, Eq, Debug)]
pub struct Finished {
    pub place: usize,
    pub leases: u64,
}
