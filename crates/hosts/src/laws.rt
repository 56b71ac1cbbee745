// The laws of the interface, on which code above it rests.
ghost use Rattle.hosts.specs.Laws.{BusyLaw, CoveredLaw, DoneLaw, ExpectedLaw, GrowthLaw, KeptLaw, LawfulLaw, LegalLaw, RefusedLaw, StandsLaw, UntestedLaw, WatchfulLaw};

// The laws hold: what an order without offence is and adds, that what stands stays lawful, which orders open no gap, what
// busy, done and a refusal leave, when only busy or full can come, when full cannot, what never changes, and that a
// watchful host stays gap-free.
pub fn laws_hold()
    ensures legal { LegalLaw }
    ensures lawful { LawfulLaw }
    ensures stands { StandsLaw }
    ensures untested { UntestedLaw }
    ensures growth { GrowthLaw }
    ensures busy { BusyLaw }
    ensures done { DoneLaw }
    ensures refused { RefusedLaw }
    ensures expected { ExpectedLaw }
    ensures covered { CoveredLaw }
    ensures kept { KeptLaw }
    ensures watchful { WatchfulLaw }
{}
