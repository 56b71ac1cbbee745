// Numbers written into a caller's list, as far as it has places.
ghost use Rattle.std.specs.Prelude.{◌≡◌};
ghost use Rattle.universe.specs.Held.{universe_in};
ghost use Rattle.sengoruwa_c.specs.Filled.{filled};
ghost use Rattle.sengoruwa_c.specs.Numbers.{entry_number as entry_number_of, standing_number as standing_number_of};

use crate::numbers::{entry_number, standing_number};
use hosts::survey::Survey;
use universe::held::Universe;

// As many numbers are told of a universe: how many types and ports it has, how many states each of 16 types has, and three
// sets for each of 8 states of each.
const ENTRIES: usize = 402;

// The numbers of instances are below this one.
const INSTANCES: usize = 256;

// Writes what is told of the universe.
pub fn fill_entries(universe: &Universe, entries: &mut [u32])
    ensures { entries.new ≡ filled (entry_number_of (universe_in universe.now)) 402 entries.old }
{
    for place in 0..entries.len().min(ENTRIES) {
        // `as`, here and below: there are few places.
        entries[place] = entry_number(universe, place as u32);
    }
}

// Writes what stands under each number.
pub fn fill_standing<S: Survey>(survey: &S, standing: &mut [u32])
    ensures { standing.new ≡ filled (λ z. standing_number_of ((S.situation survey.now).config.inst z)) 256 standing.old }
{
    for place in 0..standing.len().min(INSTANCES) {
        standing[place] = standing_number(survey.at(place as u32));
    }
}
