// Laws of runs on fresh piles.
ghost use Rattle.pile_runs.specs.Laws.{PileCoversLaw, PileEndsLaw, PileRunsLaw, PileStartLaw};

// The laws hold: fresh piles of layers over clouds are starts for what passes, give runs of any number of steps, and bring
// every script that passes to its end whose creates and binds are within their limits.
pub fn laws_hold()
    ensures start { PileStartLaw }
    ensures runs { PileRunsLaw }
    ensures covers { PileCoversLaw }
    ensures ends { PileEndsLaw }
{}
