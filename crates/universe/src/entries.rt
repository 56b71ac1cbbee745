// What a universe tells of its entries.
ghost use Rattle.std.specs.Prelude.{◌≡◌};
ghost use Rattle.universe.specs.Tables.{Sound, entry_at, tables_of_least};
ghost use Rattle.universe.specs.Held.{universe_in};

use crate::held::Universe;
use crate::sets::Field;
use crate::tables::{Kind, State, Tables};

// An entry behind the last state of a type.
pub(crate) const BLANK_STATE: State = State {
    provided: 0,
    required: 0,
    successors: 0,
};

// A type behind the last.
pub(crate) const UNUSED_KIND: Kind = Kind {
    count: 0,
    states: [BLANK_STATE; 8],
};

impl Universe {
    // The least universe, for a place to read into: one type of one state, and no ports.
    #[tactic(auto, using(crate::proofs::Accepted::least_sound))]
    pub fn least() -> Self
        ensures { result.tables ≡ tables_of_least }
    {
        let mut kinds = [UNUSED_KIND; 16];
        kinds[0].count = 1;
        Universe::holding(Tables {
            types: 1,
            ports: 0,
            kinds,
        })
    }

    // The universe that the tables hold.
    pub(crate) fn holding(tables: Tables) -> Self
        requires { Sound tables }
        ensures { result.tables ≡ tables }
    {
        Universe { tables }
    }

    // How many types there are.
    pub fn types(&self) -> u8
        ensures { result ≡ (universe_in self.now).types }
    {
        self.tables.types
    }

    // How many ports there are.
    pub fn ports(&self) -> u8
        ensures { result ≡ (universe_in self.now).ports }
    {
        self.tables.ports
    }

    // How many states the type has: none where there is no such type. Any number may be asked for, so types and states are
    // numbers of 32 bits, and no `Pair`; `as`, since `usize` has no `From<u32>`.
    pub fn states(&self, kind: u32) -> u8
        ensures { result ≡ (universe_in self.now).states kind }
    {
        self.tables
            .kinds
            .get(kind as usize)
            .map_or(0, |kind| kind.count)
    }

    // The entry of a state: blank where there is no such state.
    pub fn entry(&self, kind: u32, state: u32) -> State
        ensures { result ≡ entry_at self.now.tables kind state }
    {
        self.tables
            .kinds
            .get(kind as usize)
            .and_then(|kind| kind.states.get(state as usize))
            .copied()
            .unwrap_or(BLANK_STATE)
    }

    // Whether the state of the type provides the port.
    pub fn is_provided(&self, kind: u32, state: u32, port: u32) -> bool
        ensures { result ≡ (universe_in self.now).provides kind state port }
    {
        self.entry(kind, state).provided.has(port)
    }

    // Whether the state of the type requires the port.
    pub fn is_required(&self, kind: u32, state: u32, port: u32) -> bool
        ensures { result ≡ (universe_in self.now).requires kind state port }
    {
        self.entry(kind, state).required.has(port)
    }

    // Whether `next` is a successor of the state of the type.
    pub fn is_successor(&self, kind: u32, state: u32, next: u32) -> bool
        ensures { result ≡ (universe_in self.now).next kind state next }
    {
        self.entry(kind, state).successors.has(next)
    }
}
