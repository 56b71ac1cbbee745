// Sets of ports, packed as the universe packs its sets.
ghost use Rattle.std.specs.Prelude.{◌≡◌, ℕ, ◌<◌, ◌≤◌, not, ◌&&◌, ◌||◌, ◌==◌, ◌≢◌, true};
ghost use Rattle.universe.specs.Sets.{has};

// The set of one port.
#[tactic(auto, using(crate::proofs::PortSets::has_single))]
pub(crate) fn single(port: u32) -> u32
    requires { port < 32 }
    ensures { (p : ℕ) → has 32 result p ≡ (port == p) }
{
    1 << (31 - port)
}

// One port more.
#[tactic(auto, using(crate::proofs::PortSets::has_or))]
pub(crate) fn with(set: u32, port: u32) -> u32
    requires { port < 32 }
    ensures { (p : ℕ) → has 32 result p ≡ (has 32 set p || (port == p)) }
{
    set | single(port)
}

// One port less.
#[tactic(auto, using(crate::proofs::PortSets::has_and_not))]
pub(crate) fn without(set: u32, port: u32) -> u32
    requires { port < 32 }
    ensures ports { (p : ℕ) → has 32 result p ≡ (has 32 set p && not (port == p)) }
    ensures at_most { result ≤ set }
{
    set & !single(port)
}

// A port of the set, which has one: its last.
#[tactic(auto, using(crate::proofs::PortSets::has_last_port))]
pub(crate) fn last_of(set: u32) -> u32
    requires { set ≢ 0 }
    ensures { has 32 set result ≡ true }
{
    31 - set.trailing_zeros()
}
