// How many bindings cover each port of each instance: those whose provider is in a state that provides the port.
ghost use Rattle.std.specs.Prelude.{◌≡◌, length};

// The count of a port stands at the place requirer * 32 + port, and is at most 256. The rows of a requirer stand apart, so
// that a search for them would look at all rows; the counts are kept instead. Like the records they have no heap memory.
#[derive(Drop)]
pub struct Covers {
    pub(crate) counts: [u16; 8192],
    ghost sized: { length counts ≡ 8192 },
}
