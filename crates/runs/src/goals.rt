// Whether a goal is met.
ghost use Rattle.std.specs.Prelude.{◌≡◌};
ghost use Rattle.planner.specs.Goals.{goal_of};
ghost use Rattle.runs.specs.Goals.{TellsMet, attained, is_pair, met};

use hosts::survey::Survey;
use model::pair::Pair;
use planner::goal::pair_of_line;

// Whether the instance stands in the pair.
fn stands_in<S: Survey>(survey: &S, instance: u32, pair: Pair) -> bool
    ensures { result ≡ is_pair pair ((S.situation survey.now).config.inst instance) }
{
    survey.at(instance) == Some(pair)
}

// Whether some instance stands in the pair.
fn is_attained<S: Survey>(survey: &S, pair: Pair) -> bool
    ensures { result ≡ attained (S.situation survey.now).config pair }
{
    (0..256).any(|instance| stands_in(survey, instance, pair))
}

// Whether for each line of the goal some instance stands in its pair.
pub fn is_met<S: Survey>(survey: &S, goal: &[u8]) -> bool
    ensures value { result ≡ met (S.situation survey.now).config (goal_of goal.now) }
    ensures law { TellsMet (S.situation survey.now) (goal_of goal.now) result }
{
    goal.iter()
        .all(|line| is_attained(survey, pair_of_line(*line)))
}
