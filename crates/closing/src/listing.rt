// Building the closing order, pair by pair.
ghost use Rattle.std.specs.Prelude.{◌≡◌, ◌<◌, ◌/◌, ◌^◌, ◌++◌, ◌∷◌, [], slice_index};
ghost use Rattle.model.specs.Universe.{IsPair};
ghost use Rattle.universe.specs.declared.tables.Tables.{Tables};
ghost use Rattle.universe.specs.Held.{universe_in};
ghost use Rattle.plans.specs.Closing.{addable, closing, initial_pairs, lacks, next_pair};
ghost use Rattle.closing.specs.Listing.{Lists, Tracks, Waits, exceeds, next_of, pairs_of};

use model::pair::Pair;
use universe::held::Universe;
use universe::sets::Field;

// The pairs that are listed so far, and what tells whether a pair can be added: the ports that
// listed pairs provide, and for each type the listed states and the successors of listed states.
#[derive(Clone, Copy)]
pub(crate) struct Listing {
    pub(crate) places: [Pair; 128],
    pub(crate) len: usize,
    provided: u32,
    listed: [u8; 16],
    led: [u8; 16],
}

// The set of the type's states; none where there is no such type.
fn states_of(sets: &[u8; 16], kind: u8) -> u8
    ensures { result ≡ slice_index sets.now kind }
{
    sets.get(usize::from(kind)).copied().unwrap_or(0)
}

// Some port is in the first set and not in the second.
#[tactic(auto, using(crate::proofs::Masks::exceeds_masked))]
fn exceeds(required: u32, provided: u32) -> bool
    ensures { result ≡ exceeds required provided }
{
    required & provided != required
}

// The set of one state alone.
fn single(state: u8) -> u8
    requires { state < 8 }
    ensures { result ≡ 128 / 2 ^ state }
{
    0x80 >> state
}

impl Listing {
    // Nothing is listed.
    fn empty() -> Listing
        ensures { (t : Tables) → Lists t [] result }
    {
        Listing {
            places: [Pair { kind: 0, state: 0 }; 128],
            len: 0,
            provided: 0,
            listed: [0; 16],
            led: [0; 16],
        }
    }

    // The pairs with state 0, by type.
    fn initial(universe: &Universe) -> Listing
        ensures { Lists universe.now.tables (initial_pairs (universe_in universe.now)) result }
    {
        let mut listing = Listing::empty();
        for kind in 0..universe.types() {
            listing.push(universe, Pair { kind, state: 0 });
        }
        listing
    }

    // All pairs that can be listed.
    pub(crate) fn whole(universe: &Universe) -> Listing
        ensures { Lists universe.now.tables (closing (universe_in universe.now)) result }
    {
        let mut listing = Listing::initial(universe);
        while let Some(pair) = listing.next_pair(universe) {
            listing.push(universe, pair);
        }
        listing
    }

    // Lists a pair behind the others.
    fn push(&mut self, universe: &Universe, pair: Pair)
        requires room { self.now.len < 128 }
        requires tracks { Tracks universe.now.tables self.now }
        requires in_universe { IsPair (universe_in universe.now) pair.kind pair.state }
        ensures { Lists universe.now.tables (pairs_of self.old ++ (pair ∷ [])) self.new }
    {
        let entry = universe.entry(u32::from(pair.kind), u32::from(pair.state));
        self.places[self.len] = pair;
        self.len += 1;
        self.provided |= entry.provided;
        let kind = usize::from(pair.kind);
        self.listed[kind] |= single(pair.state);
        self.led[kind] |= entry.successors;
    }

    // The states of the type that are not listed, and that listed pairs have as successors.
    #[tactic(auto, using(crate::proofs::Tracking::waiting_told))]
    fn waiting(&self, universe: &Universe, kind: u8) -> u8
        requires tracks { Tracks universe.now.tables self.now }
        ensures { Waits (universe_in universe.now) (pairs_of self.now) kind result }
    {
        states_of(&self.led, kind) & !states_of(&self.listed, kind)
    }

    // Whether the pair requires a port that no listed pair provides.
    #[tactic(auto, using(crate::proofs::Tracking::lack_told))]
    fn lacks(&self, universe: &Universe, pair: Pair) -> bool
        requires tracks { Tracks universe.now.tables self.now }
        ensures { result ≡ lacks (universe_in universe.now) (pairs_of self.now) pair }
    {
        let entry = universe.entry(u32::from(pair.kind), u32::from(pair.state));
        exceeds(entry.required, self.provided)
    }

    // Whether the pair can be added, where the set has those of its type that wait.
    #[tactic(auto, using(crate::proofs::Tracking::addable_told))]
    fn is_addable(&self, universe: &Universe, waiting: u8, pair: Pair) -> bool
        requires tracks { Tracks universe.now.tables self.now }
        requires waits { Waits (universe_in universe.now) (pairs_of self.now) pair.kind waiting }
        ensures { result ≡ addable (universe_in universe.now) (pairs_of self.now) pair }
    {
        waiting.has(u32::from(pair.state)) && !self.lacks(universe, pair)
    }

    // The lowest state that can be added, of a type of which the set has the states that wait.
    fn next_among(&self, universe: &Universe, kind: u8, waiting: u8) -> Option<Pair>
        requires tracks { Tracks universe.now.tables self.now }
        requires waits { Waits (universe_in universe.now) (pairs_of self.now) kind waiting }
        ensures { result ≡ next_of (universe_in universe.now) (pairs_of self.now) kind }
    {
        (0..universe.states(u32::from(kind))).find_map(|state| {
            let pair = Pair { kind, state };
            self.is_addable(universe, waiting, pair).then_some(pair)
        })
    }

    // The lowest state of the type that can be added.
    #[tactic(auto, using(crate::proofs::Tracking::none_waiting))]
    fn next_of(&self, universe: &Universe, kind: u8) -> Option<Pair>
        requires tracks { Tracks universe.now.tables self.now }
        ensures { result ≡ next_of (universe_in universe.now) (pairs_of self.now) kind }
    {
        let waiting = self.waiting(universe, kind);
        if waiting == 0 {
            return None;
        }
        self.next_among(universe, kind, waiting)
    }

    // The lowest pair that can be added.
    fn next_pair(&self, universe: &Universe) -> Option<Pair>
        requires tracks { Tracks universe.now.tables self.now }
        ensures { result ≡ next_pair (universe_in universe.now) (pairs_of self.now) }
    {
        (0..universe.types()).find_map(|kind| self.next_of(universe, kind))
    }
}
