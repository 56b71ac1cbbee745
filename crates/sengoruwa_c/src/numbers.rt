// The numbers that tell of a universe, of what stands, and of a step.
ghost use Rattle.std.specs.Prelude.{◌≡◌};
ghost use Rattle.universe.specs.Held.{universe_in};
ghost use Rattle.sengoruwa_c.specs.Numbers.{entry_number, set_number, standing_number, step_number};

use executor::fault::StepFault;
use model::pair::Pair;
use universe::held::Universe;

// The number at a place of the sets of a universe's states: provided, required and successors of each of the eight states
// of each type.
fn set_number(universe: &Universe, place: u32) -> u32
    ensures { result ≡ set_number (universe_in universe.now) place }
{
    let state = universe.entry(place / 24, place / 3 % 8);
    match place % 3 {
        0 => state.provided,
        1 => state.required,
        _ => u32::from(state.successors),
    }
}

// The number at a place of what is told of a universe: its types, its ports, the states of each of 16 types, then the sets.
pub fn entry_number(universe: &Universe, place: u32) -> u32
    ensures { result ≡ entry_number (universe_in universe.now) place }
{
    match place {
        0 => u32::from(universe.types()),
        1 => u32::from(universe.ports()),
        2..18 => u32::from(universe.states(place - 2)),
        _ => set_number(universe, place - 18),
    }
}

// The number of what stands under an instance's number: 0 for nothing.
pub fn standing_number(found: Option<Pair>) -> u32
    ensures { result ≡ standing_number found }
{
    found.map_or(0, |pair| {
        1 + 8 * u32::from(pair.kind) + u32::from(pair.state)
    })
}

// The number of what a step answers: 0 where it is done, and with a host's refusal its height.
pub fn step_number(answer: Result<(), StepFault>) -> u32
    ensures { result ≡ step_number answer }
{
    match answer {
        Ok(()) => 0,
        Err(StepFault::NoLine) => u32::from(StepFault::NoLine.number()),
        Err(StepFault::Refused { refusal, .. }) => {
            256 * u32::from(refusal.height) + u32::from(refusal.reason.number())
        }
    }
}
