// The entries of a universe as plain records. A universe has no heap memory and is copied, so its arrays are as long
// as they may get, with their counts beside them.

// What one state provides, requires and may change to, each a packed set.
#[derive(Clone, Copy, PartialEq, Eq, Debug)]
pub struct State {
    pub provided: u32,
    pub required: u32,
    pub successors: u8,
}

// One type: how many states it has, and their entries; the entries behind them are blank.
#[derive(Clone, Copy)]
pub struct Kind {
    pub count: u8,
    pub states: [State; 8],
}

// The counts of types and ports, and the types; the types behind them are blank.
#[derive(Clone, Copy)]
pub struct Tables {
    pub types: u8,
    pub ports: u8,
    pub kinds: [Kind; 16],
}
