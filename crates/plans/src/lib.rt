// Goals, the closing order, plans and their scripts: definitions, and the laws about them.
#![tactic(auto)]

ghost use Rattle.plans.specs.Laws.{ClosingLaw, EndLaw, LinesLaw, LowerLaw, NeededLaw, PlanLaw, ReachLaw, SizeLaw, SupplierLaw, WorkingLaw};

// The laws hold: the script of a plan that works is a run, and the plan for a goal works; the
// closing order lists what some run brings about; the script for a goal in reach is a run that
// reaches it, and no run reaches any other goal; suppliers have lower ranks than the pairs that need
// them; the needed pairs are those that the goal needs, by rank, and the script leaves just them;
// providers have lower numbers than requirers; scripts are short, and every order has a line.
pub fn laws_hold()
    ensures working { WorkingLaw }
    ensures plan { PlanLaw }
    ensures closing { ClosingLaw }
    ensures reach { ReachLaw }
    ensures supplier { SupplierLaw }
    ensures needed { NeededLaw }
    ensures end { EndLaw }
    ensures lower { LowerLaw }
    ensures size { SizeLaw }
    ensures lines { LinesLaw }
{}
