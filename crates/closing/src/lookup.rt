// Lookups in the closing order.
ghost use Rattle.std.specs.Prelude.{◌≡◌, length, position, slice_get};
ghost use Rattle.plans.specs.Lists.{rank_of, same_pair};
ghost use Rattle.plans.specs.Closing.{parent_rank, supplier_rank};
ghost use Rattle.closing.specs.Order.{pairs_in_order, universe_in_order};

use crate::listing::Listing;
use crate::order::ClosingOrder;
use crate::ranks::Ranks;
use model::pair::Pair;
use universe::held::Universe;

// The first place that holds the pair.
fn place_of(places: &[Pair], pair: Pair) -> Option<usize>
    ensures { result ≡ position (same_pair pair) places.now }
{
    places.iter().position(|listed| pair == *listed)
}

impl ClosingOrder {
    // The closing order of the universe.
    pub fn of(universe: &Universe) -> ClosingOrder
        ensures { result.universe ≡ universe.now }
    {
        let Listing { places, len, .. } = Listing::whole(universe);
        let ranks = Ranks::of(universe, &places[..len]);
        ClosingOrder {
            universe: *universe,
            places,
            len,
            ranks,
        }
    }

    // Its universe.
    pub fn universe(&self) -> &Universe
        ensures { result.now ≡ self.now.universe }
    {
        &self.universe
    }

    // How many pairs are listed.
    pub fn len(&self) -> usize
        ensures { result ≡ length (pairs_in_order self.now) }
    {
        self.len
    }

    // The listed pairs.
    fn pairs(&self) -> &[Pair]
        ensures { result.now ≡ pairs_in_order self.now }
    {
        &self.places[..self.len]
    }

    // The pair at the rank, if there is one.
    pub fn pair(&self, rank: usize) -> Option<Pair>
        ensures { result ≡ slice_get (pairs_in_order self.now) rank }
    {
        self.pairs().get(rank).copied()
    }

    // The rank of the pair; the number of listed pairs where it is not listed.
    pub fn rank(&self, pair: Pair) -> usize
        ensures { result ≡ rank_of (pairs_in_order self.now) pair }
    {
        place_of(self.pairs(), pair).unwrap_or(self.len)
    }

    // The rank of the parent of the pair, the lowest that has it as a successor; the number of
    // listed pairs where none has.
    pub fn parent(&self, pair: Pair) -> usize
        ensures { result ≡ parent_rank (universe_in_order self.now) (pairs_in_order self.now) pair }
    {
        self.ranks.parent(pair, self.len)
    }

    // The rank of the supplier of the port, the lowest that provides it; the number of listed pairs where none does.
    pub fn supplier(&self, port: u32) -> usize
        ensures { result ≡ supplier_rank (universe_in_order self.now) (pairs_in_order self.now) port }
    {
        self.ranks.supplier(port, self.len)
    }
}
