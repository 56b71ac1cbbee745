// Paths of listed pairs.
ghost use Rattle.std.specs.Prelude.{◌≡◌, ◌∷◌, ◌<◌, true};
ghost use Rattle.plans.specs.Lists.{listed, pair_at};
ghost use Rattle.plans.specs.Needs.{path};
ghost use Rattle.closing.specs.Order.{pairs_in_order, universe_in_order};
ghost use Rattle.planner.specs.Held.{PathFits, states_of_path};

use closing::order::ClosingOrder;
use model::pair::Pair;

// What is taken where a list has no pair.
pub(crate) const FIRST_PAIR: Pair = Pair { kind: 0, state: 0 };

// The pair at the rank, in the order.
#[tactic(auto, using(crate::proofs::Climbing::pair_or_first))]
pub(crate) fn pair_at(order: &ClosingOrder, rank: usize) -> Pair
    ensures { result ≡ pair_at (pairs_in_order order.now) rank }
{
    order.pair(rank).unwrap_or(FIRST_PAIR)
}

// The states of a path behind state 0, from a place of the array on.
#[derive(Clone, Copy)]
pub(crate) struct Path {
    pub(crate) states: [u8; 8],
    pub(crate) from: usize,
}

impl Path {
    // The states, in the order in which they are walked over.
    pub(crate) fn states(&self) -> &[u8]
        requires { PathFits self.now }
        ensures { result.now ≡ states_of_path self.now }
    {
        &self.states[self.from..]
    }

    // Puts a state in front of the others.
    fn push_front(&mut self, state: u8)
        requires fits { PathFits self.now }
        requires room { 0 < self.now.from }
        ensures fits { PathFits self.new }
        ensures states { states_of_path self.new ≡ state ∷ states_of_path self.old }
    {
        self.from -= 1;
        self.states[self.from] = state;
    }
}

// The path of a listed pair, found from its end.
pub(crate) fn path_of(order: &ClosingOrder, pair: Pair) -> Path
    requires { listed (pairs_in_order order.now) pair ≡ true }
    ensures fits { PathFits result }
    ensures states { states_of_path result ≡ path (universe_in_order order.now) (pairs_in_order order.now) pair }
{
    let mut path = Path {
        states: [0; 8],
        from: 8,
    };
    let mut at = pair;
    while at.state != 0 {
        path.push_front(at.state);
        at = pair_at(order, order.parent(at));
    }
    path
}
