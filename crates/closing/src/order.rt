// The kept closing order.
ghost use Rattle.closing.specs.Kept.{Kept};

use crate::ranks::Ranks;
use model::pair::Pair;
use universe::held::Universe;

// The first `len` places hold the closing order of the universe, and the ranks are those of its
// suppliers and parents. By a rule of the project it has no heap memory.
#[derive(Clone, Copy)]
pub struct ClosingOrder {
    pub(crate) universe: Universe,
    pub(crate) places: [Pair; 128],
    pub(crate) len: usize,
    pub(crate) ranks: Ranks,
    ghost kept: { Kept universe.tables places len ranks },
}
