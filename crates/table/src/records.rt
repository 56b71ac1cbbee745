// The records of a configuration: what stands under each number, and a row for each provider and requirer of bindings.
ghost use Rattle.table.specs.Fit.{Fit};

use crate::row::Row;
use model::pair::Pair;

// The first `len` rows are in use, `count` instances stand, and `bindings` bindings. By a rule of the project the table has
// no heap memory, so its arrays are as long as they may get; no row is empty, so there are no more rows than bindings. No
// order may cost a walk over all slots, so the counts are kept beside them.
#[derive(Drop)]
pub struct Records {
    pub(crate) slots: [Option<Pair>; 256],
    pub(crate) rows: [Row; 2048],
    pub(crate) len: usize,
    pub(crate) count: u32,
    pub(crate) bindings: u32,
    ghost fit: { Fit slots rows len count bindings },
}
