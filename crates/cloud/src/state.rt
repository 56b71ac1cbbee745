// What the simulated cloud holds.
ghost use Rattle.std.specs.Prelude.{◌≤◌};

use table::table::Table;

// A table, how many of the coming orders are put off, and how many after each order that is not.
#[derive(Drop)]
pub struct Cloud {
    pub(crate) table: Table,
    pub(crate) waits: u32,
    pub(crate) delay: u32,
    ghost bounds: { waits ≤ delay },
}
