// How many instances and bindings may stand.
#[derive(Clone, Copy, PartialEq, Eq, Debug)]
pub struct Limits {
    pub instances: u32,
    pub bindings: u32,
}
