// Planning a goal into a caller's list.
ghost use Rattle.std.specs.Prelude.{◌≡◌, ◌≤◌, Ok, length};
ghost use Rattle.universe.specs.Held.{universe_in};
ghost use Rattle.plans.specs.Script.{script};
ghost use Rattle.closing.specs.Order.{universe_in_order};
ghost use Rattle.planner.specs.Goals.{goal_of};
ghost use Rattle.planner.specs.Planning.{RefusedExactly, WritesRun, list_after, plan_answer, planned};

use crate::goal::{check_goal, is_in_reach};
use crate::needs::needed_pairs;
use crate::refusal::PlanRefusal;
use crate::writing::Plan;
use closing::order::ClosingOrder;
use universe::held::Universe;

// No script has more lines.
pub const MOST_LINES: usize = 11136;

// Writes the script for the goal into the list, and answers how many lines it has; refused where
// the list has fewer places.
#[tactic(auto, unfolding(plans::specs::Script::script))]
fn write_script(order: &ClosingOrder, goal: &[u8], lines: &mut [u32]) -> Result<usize, PlanRefusal>
    requires { length goal.now ≤ 16 }
    ensures answer { result ≡ plan_answer (Ok (script (universe_in_order order.now) (goal_of goal.now))) (length lines.old) }
    ensures lines { lines.new ≡ list_after (Ok (script (universe_in_order order.now) (goal_of goal.now))) lines.old }
{
    let needed = needed_pairs(order, goal);
    let plan = Plan::of(order, needed.pairs());
    plan.write_into(lines)
}

// Writes the script for the goal's lines into the list, and answers how many lines it has; or why not.
fn write_plan(universe: &Universe, goal: &[u8], lines: &mut [u32]) -> Result<usize, PlanRefusal>
    ensures answer { result ≡ plan_answer (planned (universe_in universe.now) goal.now) (length lines.old) }
    ensures lines { lines.new ≡ list_after (planned (universe_in universe.now) goal.now) lines.old }
{
    check_goal(universe, goal)?;
    let order = ClosingOrder::of(universe);
    if !is_in_reach(&order, goal) {
        return Err(PlanRefusal::OutOfReach);
    }
    write_script(&order, goal, lines)
}

// Plans the goal, a line in each byte, into the list: writes the script's lines, leaves what is
// behind them, and answers how many they are. On a refusal the list stays as it was. A goal that
// meets no earlier refusal is refused as out of reach exactly if no run reaches it; what is
// written tells a run that does.
#[tactic(auto, using(crate::proofs::Promising::refused_held, crate::proofs::Promising::run_held))]
pub fn plan(universe: &Universe, goal: &[u8], lines: &mut [u32]) -> Result<usize, PlanRefusal>
    ensures answer { result ≡ plan_answer (planned (universe_in universe.now) goal.now) (length lines.old) }
    ensures lines { lines.new ≡ list_after (planned (universe_in universe.now) goal.now) lines.old }
    ensures refused { RefusedExactly (universe_in universe.now) goal.now result }
    ensures run { WritesRun (universe_in universe.now) goal.now result lines.new }
{
    write_plan(universe, goal, lines)
}
