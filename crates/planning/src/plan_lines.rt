// The lines of a planned script.
ghost use Rattle.std.specs.Prelude.{◌≡◌, string_bytes, vec_items};
ghost use Rattle.universe.specs.Reading.{tables_read};
ghost use Rattle.universe.specs.Held.{universe_in};
ghost use Rattle.console.specs.Told.{Told};
ghost use Rattle.planner.specs.Planning.{planned};
ghost use Rattle.planning.specs.Planning.{lines_in, planned_lines};

use console::failure::Failure;
use console::report::{read_universe, refused_line};
use planner::plan::{MOST_LINES, plan};
use std::alloc::Global;
use universe::held::Universe;

// The lines of the script for the goal, in a list of so many places; or the refusal.
fn lines_for(
    alloc: Global,
    universe: &Universe,
    goal: &[u8],
    room: usize,
) -> Result<Vec<u32>, Failure<String>>
    ensures { Told vec_items string_bytes result (lines_in room (planned (universe_in universe.now) goal.now)) }
{
    let mut lines = vec![in alloc; 0; room]?;
    match plan(universe, goal, &mut lines) {
        Ok(count) => {
            lines.truncate(count);
            Ok(lines)
        }
        Err(refusal) => Err(Failure::Refused(refused_line(alloc, refusal.number())?)),
    }
}

// The lines of the script for the goal in the universe of a packed file, in a list of so many
// places; or the refusal of the file or of the goal.
#[tactic(auto, using(crate::proofs::Rooms::told_lines))]
pub fn plan_lines(
    alloc: Global,
    universe: &[u8],
    goal: &[u8],
    room: usize,
) -> Result<Vec<u32>, Failure<String>>
    ensures { Told vec_items string_bytes result (planned_lines goal.now room (tables_read universe.now)) }
{
    let universe = read_universe(alloc, universe)?;
    // No script has more lines, so no more places are needed.
    lines_for(alloc, &universe, goal, room.min(MOST_LINES))
}
