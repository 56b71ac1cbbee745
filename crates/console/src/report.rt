// The reading of a universe, and the line of its refusal.
ghost use Rattle.std.specs.Prelude.{◌≡◌, IfOk, string_bytes};
ghost use Rattle.universe.specs.Reading.{tables_read};
ghost use Rattle.console.specs.Refused.{refused_line_of, refusal_told};
ghost use Rattle.console.specs.Told.{Told};

use crate::failure::Failure;
use std::alloc::{AllocError, Global};
use universe::held::Universe;
use universe::reading::read;

// The line of a refusal that carries no more than its number.
pub fn refused_line(alloc: Global, number: u8) -> Result<String, AllocError>
    ensures { IfOk result (λ s. string_bytes s ≡ refused_line_of number) }
{
    format!(in alloc; "refused {number}\n")
}

// The universe that the file packs, or the line of its refusal. A reading writes a place that its caller holds.
pub fn read_universe(alloc: Global, bytes: &[u8]) -> Result<Universe, Failure<String>>
    ensures { Told (λ (u : Universe). u.tables) string_bytes result (refusal_told (tables_read bytes.now)) }
{
    let mut universe = Universe::least();
    match read(bytes, &mut universe) {
        Ok(()) => Ok(universe),
        Err(refusal) => Err(Failure::Refused(refused_line(alloc, refusal.number())?)),
    }
}
