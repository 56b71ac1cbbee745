// Why a call is refused, and the numbers that tell of it.
ghost use Rattle.std.specs.Prelude.{◌≡◌};
ghost use Rattle.sengoruwa_c.specs.Refusals.{fault_told, number_told, offence_told, refused_number};
ghost use Rattle.sengoruwa_c.specs.declared.refusal.Refused.TheVariants.{Check, Plan, Universe};

use crate::records::Fault;
use checking::refusal::{CheckRefusal, LineFault};
use planner::refusal::PlanRefusal;
use universe::refusal::UniverseRefusal;

// Why a call does not do what it was asked for: the file, the goal or the draft is refused.
#[derive(Clone, Copy, PartialEq, Eq, Debug)]
pub enum Refused {
    Universe(UniverseRefusal),
    Plan(PlanRefusal),
    Check(CheckRefusal),
}

impl From<UniverseRefusal> for Refused {
    ghost from_gives = { λ e r. r ≡ Universe e };

    fn from(refusal: UniverseRefusal) -> Refused {
        Refused::Universe(refusal)
    }
}

impl From<PlanRefusal> for Refused {
    ghost from_gives = { λ e r. r ≡ Plan e };

    fn from(refusal: PlanRefusal) -> Refused {
        Refused::Plan(refusal)
    }
}

impl From<CheckRefusal> for Refused {
    ghost from_gives = { λ e r. r ≡ Check e };

    fn from(refusal: CheckRefusal) -> Refused {
        Refused::Check(refusal)
    }
}

impl Refused {
    // The number by which the refusal is reported.
    pub fn number(self) -> u8
        ensures { result ≡ refused_number self }
    {
        match self {
            Refused::Universe(refusal) => refusal.number(),
            Refused::Plan(refusal) => refusal.number(),
            Refused::Check(refusal) => refusal.number(),
        }
    }
}

// The number of an answer: 0, or that of its refusal.
pub fn number_of(answer: Result<(), Refused>) -> u32
    ensures { result ≡ number_told answer }
{
    match answer {
        Ok(()) => 0,
        Err(refused) => u32::from(refused.number()),
    }
}

// Why an order is not legal, as a number; 0 for the other faults of a line.
fn offence_of(fault: LineFault) -> u64
    ensures { result ≡ offence_told fault }
{
    match fault {
        LineFault::Illegal(offence) => u64::from(offence.number()),
        LineFault::NotALine | LineFault::Gap | LineFault::TooManyBindings => 0,
    }
}

// The bad line that an answer tells of: zeros where it tells of none.
pub fn fault_of(answer: Result<(), Refused>) -> Fault
    ensures { result ≡ fault_told answer }
{
    match answer {
        Err(Refused::Check(CheckRefusal::AtLine { place, fault })) => Fault {
            place: place as u64,
            offence: offence_of(fault),
        },
        _ => Fault {
            place: 0,
            offence: 0,
        },
    }
}
