// The ranks of suppliers and parents, found once for a whole list.
ghost use Rattle.std.specs.Prelude.{◌≡◌, ◌≤◌, List, length};
ghost use Rattle.std.specs.List.{All};
ghost use Rattle.model.specs.declared.pair.Pair.{Pair};
ghost use Rattle.model.specs.Universe.{IsPair, Universe as Model};
ghost use Rattle.universe.specs.Held.{universe_in};
ghost use Rattle.closing.specs.Ranks.{Marked, Noted, Tells, parent_told, supplier_told};

use model::pair::Pair;
use universe::held::Universe;
use universe::sets::Field;

// For each port the rank of its supplier, and by type and state the rank of each pair's parent; the
// number of listed pairs where there is none.
#[derive(Clone, Copy)]
pub struct Ranks {
    suppliers: [u8; 32],
    parents: [[u8; 8]; 16],
}

// Writes the rank to the places of the row whose numbers are in the set.
fn mark<F: Field>(row: &mut [u8], set: F, rank: u8)
    requires { length row.now ≤ 32 }
    ensures { Marked F.WIDTH (F.bits set) rank (length row.old) row.old row.new }
{
    for number in 0..row.len() {
        // `as` loses nothing: there are at most 32 places.
        if set.has(number as u32) {
            row[number] = rank;
        }
    }
}

impl Ranks {
    // Of no pairs of a list: the length of the list everywhere.
    fn none(len: u8) -> Ranks
        ensures { (u : Model) (l : List Pair) → length l ≡ len → Tells u l len result }
    {
        Ranks {
            suppliers: [len; 32],
            parents: [[len; 8]; 16],
        }
    }

    // Takes note of the pair of a rank, which is lower than those that were noted before.
    fn note(&mut self, universe: &Universe, pair: Pair, rank: u8)
        requires { IsPair (universe_in universe.now) pair.kind pair.state }
        ensures { Noted (universe_in universe.now) pair rank self.old self.new }
    {
        let entry = universe.entry(u32::from(pair.kind), u32::from(pair.state));
        mark(&mut self.suppliers, entry.provided, rank);
        mark(
            &mut self.parents[usize::from(pair.kind)],
            entry.successors,
            rank,
        );
    }

    // Of all pairs of the list, noted from the highest rank down, since the lowest counts.
    pub(crate) fn of(universe: &Universe, pairs: &[Pair]) -> Ranks
        requires few { length pairs.now ≤ 128 }
        requires in_universe { All (λ h. IsPair (universe_in universe.now) h.kind h.state) pairs.now }
        ensures { Tells (universe_in universe.now) pairs.now 0 result }
    {
        // `as` loses nothing: there are at most 128 pairs.
        let mut ranks = Ranks::none(pairs.len() as u8);
        for rank in (0..pairs.len()).rev() {
            ranks.note(universe, pairs[rank], rank as u8);
        }
        ranks
    }

    // The rank of the supplier of the port; `none` where there is no such port.
    pub(crate) fn supplier(&self, port: u32, none: usize) -> usize
        ensures { result ≡ supplier_told self.now none port }
    {
        self.suppliers
            .get(port as usize)
            .map_or(none, |rank| usize::from(*rank))
    }

    // The rank of the parent of the pair; `none` where there is no such pair.
    pub(crate) fn parent(&self, pair: Pair, none: usize) -> usize
        ensures { result ≡ parent_told self.now none pair }
    {
        self.parents
            .get(usize::from(pair.kind))
            .and_then(|row| row.get(usize::from(pair.state)))
            .map_or(none, |rank| usize::from(*rank))
    }
}
