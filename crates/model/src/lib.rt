// The model: universes, configurations, orders and runs, and the laws about them.
#![tactic(auto)]

ghost use Rattle.model.specs.Laws.{CountLaw, EmptyLaw, FormedLaw, OpeningLaw, PrefixLaw, RunLaw, SearchLaw};

pub mod binding;
pub mod order;
pub mod pair;

// The laws of the model hold: nothing has a gap where nothing stands, legal orders keep a configuration
// well formed, only changes and unbinds open gaps, the bounded search finds every gap, and a run leads
// from a well-formed, gap-free configuration to one.
pub fn laws_hold()
    ensures empty { EmptyLaw }
    ensures formed { FormedLaw }
    ensures opening { OpeningLaw }
    ensures search { SearchLaw }
    ensures run { RunLaw }
    ensures prefixes { PrefixLaw }
{}

// An order moves the counts of what stands by one at most, but for the bindings that a delete ends.
pub fn counts_hold()
    ensures { CountLaw }
{}
