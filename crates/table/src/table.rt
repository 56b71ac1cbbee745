// The table: a universe, the records of what stands in it, and how much may stand.
ghost use Rattle.std.specs.Prelude.{◌≤◌};
ghost use Rattle.universe.specs.Held.{universe_in};
ghost use Rattle.table.specs.Fit.{Ranged};
ghost use Rattle.table.specs.Records.{config_of};
ghost use Rattle.table.specs.Covers.{Counted};

use crate::covers::Covers;
use crate::limits::Limits;
use crate::records::Records;
use universe::held::Universe;

#[derive(Drop)]
pub struct Table {
    pub(crate) universe: Universe,
    pub(crate) records: Records,
    pub(crate) covers: Covers,
    pub(crate) limits: Limits,
    ghost ranged: { Ranged universe.tables.ports records.rows records.len },
    ghost counted: { Counted (universe_in universe) (config_of records) covers.counts },
    ghost room: { limits.bindings ≤ 2048 },
}
