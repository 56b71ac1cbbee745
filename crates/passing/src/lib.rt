// What passing the check means for the planner's scripts and for runs: laws, no code.
#![tactic(auto)]

ghost use Rattle.passing.specs.Laws.{PlannedCheckedLaw, PlannedPassesLaw, StartLaw};

// The laws hold: a planned script passes, on every empty host of the universe planned from; and what passes is a run that
// may start on every empty host.
pub fn laws_hold()
    ensures planned { PlannedPassesLaw }
    ensures checked { PlannedCheckedLaw }
    ensures start { StartLaw }
{}
