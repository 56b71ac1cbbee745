// The lines of a goal, a byte each: type 4 bits, state 3, one zero bit.
ghost use Rattle.std.specs.Prelude.{◌≡◌};
ghost use Rattle.std.specs.List.{list_all};
ghost use Rattle.universe.specs.Held.{universe_in};
ghost use Rattle.plans.specs.Lists.{listed};
ghost use Rattle.closing.specs.Order.{pairs_in_order};
ghost use Rattle.planner.specs.Goals.{goal_checked, goal_of, is_goal_line, pair_of_line};

use crate::refusal::PlanRefusal;
use closing::order::ClosingOrder;
use model::pair::Pair;
use universe::held::Universe;

// The pair that a line names.
pub fn pair_of_line(line: u8) -> Pair
    ensures { result ≡ pair_of_line line }
{
    Pair {
        kind: line >> 4,
        state: (line >> 1) & 7,
    }
}

// Whether the line names a pair of the universe, with its zero bit not set.
fn is_goal_line(universe: &Universe, line: u8) -> bool
    ensures { result ≡ is_goal_line (universe_in universe.now) line }
{
    let pair = pair_of_line(line);
    line % 2 == 0
        && pair.kind < universe.types()
        && pair.state < universe.states(u32::from(pair.kind))
}

// Whether every line is a line of a goal.
fn are_goal_lines(universe: &Universe, goal: &[u8]) -> bool
    ensures { result ≡ list_all (is_goal_line (universe_in universe.now)) goal.now }
{
    goal.iter().all(|line| is_goal_line(universe, *line))
}

// Refused where the goal has too few or too many lines, or a line is no line of a goal.
pub(crate) fn check_goal(universe: &Universe, goal: &[u8]) -> Result<(), PlanRefusal>
    ensures { result ≡ goal_checked (universe_in universe.now) goal.now }
{
    if !(1..=16).contains(&goal.len()) {
        return Err(PlanRefusal::GoalLength);
    }
    if !are_goal_lines(universe, goal) {
        return Err(PlanRefusal::NoPair);
    }
    Ok(())
}

// Whether some line names the pair.
pub(crate) fn has_pair(goal: &[u8], pair: Pair) -> bool
    ensures { result ≡ listed (goal_of goal.now) pair }
{
    goal.iter().any(|line| pair == pair_of_line(*line))
}

// Whether the order lists the pair.
#[tactic(auto, using(crate::proofs::Naming::ranked))]
fn is_listed(order: &ClosingOrder, pair: Pair) -> bool
    ensures { result ≡ listed (pairs_in_order order.now) pair }
{
    order.rank(pair) < order.len()
}

// Whether the order lists the pair of every line.
pub(crate) fn is_in_reach(order: &ClosingOrder, goal: &[u8]) -> bool
    ensures { result ≡ list_all (listed (pairs_in_order order.now)) (goal_of goal.now) }
{
    goal.iter()
        .all(|line| is_listed(order, pair_of_line(*line)))
}
