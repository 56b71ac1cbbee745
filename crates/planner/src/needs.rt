// The pairs that a goal needs.
ghost use Rattle.std.specs.Prelude.{◌≡◌, ◌∷◌, ◌<◌, ◌≤◌, ℕ, length, true};
ghost use Rattle.universe.specs.Sets.{has};
ghost use Rattle.universe.specs.Tables.{entry_at};
ghost use Rattle.plans.specs.Lists.{listed};
ghost use Rattle.plans.specs.Needs.{needed, path_requires};
ghost use Rattle.closing.specs.Order.{pairs_in_order, universe_in_order};
ghost use Rattle.planner.specs.Goals.{goal_of};
ghost use Rattle.planner.specs.Held.{NeededFits, is_needed, pairs_of_needed, supplies};

use crate::goal::has_pair;
use crate::path::{FIRST_PAIR, pair_at, path_of};
use closing::order::ClosingOrder;
use model::pair::Pair;
use universe::sets::Field;

// The needed pairs by rank, from a place of the array on.
#[derive(Clone, Copy)]
pub(crate) struct Needed {
    pub(crate) pairs: [Pair; 128],
    pub(crate) from: usize,
}

impl Needed {
    // The pairs, by rank.
    pub(crate) fn pairs(&self) -> &[Pair]
        requires { NeededFits self.now }
        ensures { result.now ≡ pairs_of_needed self.now }
    {
        &self.pairs[self.from..]
    }

    // Puts a pair in front of the others.
    fn push_front(&mut self, pair: Pair)
        requires fits { NeededFits self.now }
        requires room { 0 < self.now.from }
        ensures fits { NeededFits self.new }
        ensures pairs { pairs_of_needed self.new ≡ pair ∷ pairs_of_needed self.old }
    {
        self.from -= 1;
        self.pairs[self.from] = pair;
    }
}

// The ports that some pair on the path of a listed pair requires.
fn path_ports(order: &ClosingOrder, pair: Pair) -> u32
    requires { listed (pairs_in_order order.now) pair ≡ true }
    ensures { (p : ℕ) → has 32 result p ≡ path_requires (universe_in_order order.now) (pairs_in_order order.now) pair p }
{
    let path = path_of(order, pair);
    let mut ports = 0;
    for state in path.states() {
        ports |= order
            .universe()
            .entry(u32::from(pair.kind), u32::from(*state))
            .required;
    }
    ports
}

// Whether the pair of the rank is the supplier of one of the ports, asked of each.
fn supplies_some(order: &ClosingOrder, ports: u32, rank: usize) -> bool
    ensures { result ≡ supplies (universe_in_order order.now) (pairs_in_order order.now) ports rank }
{
    (0..u32::from(order.universe().ports())).any(|port| {
        ports.has(port) && order.supplier(port) == rank
    })
}

// The ports that the pair provides.
fn provided(order: &ClosingOrder, pair: Pair) -> u32
    ensures { result ≡ (entry_at order.now.universe.tables pair.kind pair.state).provided }
{
    order
        .universe()
        .entry(u32::from(pair.kind), u32::from(pair.state))
        .provided
}

// Whether the pair of the rank is the supplier of one of the ports. A supplier provides its port, so
// most pairs are passed over at once.
fn supplies(order: &ClosingOrder, ports: u32, rank: usize) -> bool
    requires { rank < length (pairs_in_order order.now) }
    ensures { result ≡ supplies (universe_in_order order.now) (pairs_in_order order.now) ports rank }
{
    provided(order, pair_at(order, rank)) & ports != 0 && supplies_some(order, ports, rank)
}

// Whether the pair of the rank is in the goal, or the supplier of one of the ports.
fn is_needed(order: &ClosingOrder, goal: &[u8], ports: u32, rank: usize) -> bool
    requires { rank < length (pairs_in_order order.now) }
    ensures { result ≡ is_needed (universe_in_order order.now) (pairs_in_order order.now) (goal_of goal.now) ports rank }
{
    has_pair(goal, pair_at(order, rank)) || supplies(order, ports, rank)
}

// The pairs that the goal needs, by rank: found from the highest rank down, since a supplier always
// has a lower rank than the pairs that need it. They are 48 at most.
pub(crate) fn needed_pairs(order: &ClosingOrder, goal: &[u8]) -> Needed
    requires { length goal.now ≤ 16 }
    ensures fits { NeededFits result }
    ensures few { length (pairs_of_needed result) ≤ 48 }
    ensures pairs { pairs_of_needed result ≡ needed (universe_in_order order.now) (pairs_in_order order.now) (goal_of goal.now) }
{
    let mut needed = Needed {
        pairs: [FIRST_PAIR; 128],
        from: 128,
    };
    let mut required = 0;
    for rank in (0..order.len()).rev() {
        if is_needed(order, goal, required, rank) {
            let pair = pair_at(order, rank);
            needed.push_front(pair);
            required |= path_ports(order, pair);
        }
    }
    needed
}
