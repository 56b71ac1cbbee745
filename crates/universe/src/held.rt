// A universe: entries that keep to the rules of the model.
ghost use Rattle.universe.specs.Tables.{Sound};

use crate::tables::Tables;

#[derive(Clone, Copy)]
pub struct Universe {
    pub(crate) tables: Tables,
    ghost sound: { ∥ Sound tables ∥₁ },
}
