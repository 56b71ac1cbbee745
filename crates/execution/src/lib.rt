// Runs of a script over a host, as a relation over what the host means, and the law about them: definitions and laws, no
// code.
#![tactic(auto)]

ghost use Rattle.execution.specs.Laws.{EndsLaw, StepsLaw};

// The law over runs: whatever the host, after every step of every run from a start at which the script is a run, nothing
// has a gap, the host has answered done, busy or full, and bindings made less bindings ended are those that stand less
// those that stood; and where the allowances cover the script, it comes to its end.
pub fn laws_hold()
    ensures steps { StepsLaw }
    ensures ends { EndsLaw }
{}
