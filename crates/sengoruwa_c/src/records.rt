// What crosses to C and back besides numbers and lists.

// Where a draft is bad: the place of the line, and why an order is not legal; 0 where there is none.
#[repr(C)]
#[derive(Clone, Copy, PartialEq, Eq, Debug)]
pub struct Fault {
    pub place: u64,
    pub offence: u64,
}

// The simulated cloud: its limits, its delay, and how many verifying layers stand over it, at most 2.
#[repr(C)]
#[derive(Clone, Copy, PartialEq, Eq, Debug)]
pub struct Settings {
    pub instances: u32,
    pub bindings: u32,
    pub delay: u32,
    pub layers: u32,
}

// A run's end: place and leases, how many instances and bindings stand in the host, its waits, and how many creates and
// binds it still allows.
#[repr(C)]
#[derive(Clone, Copy, PartialEq, Eq, Debug)]
pub struct Ended {
    pub place: u64,
    pub leases: u64,
    pub instances: u64,
    pub bindings: u64,
    pub waits: u64,
    pub creations: u64,
    pub binds: u64,
}

// The end of a run that was refused.
pub(crate) const NOTHING_ENDED: Ended = Ended {
    place: 0,
    leases: 0,
    instances: 0,
    bindings: 0,
    waits: 0,
    creations: 0,
    binds: 0,
};
