// A type with one of its states.
#[derive(Clone, Copy, PartialEq, Eq, Debug)]
pub struct Pair {
    pub kind: u8,
    pub state: u8,
}
