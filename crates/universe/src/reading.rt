// Reading a universe from its packed file into a place that the caller holds.
ghost use Rattle.std.specs.Prelude.{◌≡◌};
ghost use Rattle.universe.specs.Packed.{Packs};
ghost use Rattle.universe.specs.Reading.{Splits, answer_of, held_after, kind_read, kind_size, tables_read};

use crate::entries::{BLANK_STATE, UNUSED_KIND};
use crate::groups::{read_count, read_header, read_state};
use crate::held::Universe;
use crate::refusal::UniverseRefusal;
use crate::tables::{Kind, Tables};

// The type at the front of the bytes, and the bytes behind it.
#[tactic(auto, using(crate::proofs::Turns::kind_stops), unfolding(crate::specs::Reading::kind_read))]
fn read_kind(ports: u8, bytes: &[u8]) -> Result<(Kind, &[u8]), UniverseRefusal>
    ensures { Splits kind_size result (kind_read ports bytes.now) bytes.now }
{
    let (count, mut rest) = read_count(bytes)?;
    let mut states = [BLANK_STATE; 8];
    for (number, state) in states[..usize::from(count)].iter_mut().enumerate() {
        // `as` loses nothing: the array has eight places.
        (*state, rest) = read_state(ports, count, number as u8, rest)?;
    }
    Ok((Kind { count, states }, rest))
}

// The tables that the whole file packs.
#[tactic(auto, using(crate::proofs::Turns::tables_refused, crate::proofs::Turns::tables_stop, crate::proofs::Turns::tables_cut, crate::proofs::Turns::tables_done))]
fn read_tables(bytes: &[u8]) -> Result<Tables, UniverseRefusal>
    ensures { result ≡ tables_read bytes.now }
{
    let (header, mut rest) = read_header(bytes)?;
    let mut kinds = [UNUSED_KIND; 16];
    for kind in kinds[..usize::from(header.types)].iter_mut() {
        (*kind, rest) = read_kind(header.ports, rest)?;
    }
    if !rest.is_empty() {
        return Err(UniverseRefusal::Length);
    }
    Ok(Tables {
        types: header.types,
        ports: header.ports,
        kinds,
    })
}

// Reads the universe that the file packs into the place; a file that is refused leaves the place as it was. By a rule of
// the project the place is the caller's, so this answers no universe.
#[tactic(auto, using(crate::proofs::Accepted::accepted, crate::proofs::Accepted::refused, crate::proofs::Checked::read_sound))]
pub fn read(bytes: &[u8], place: &mut Universe) -> Result<(), UniverseRefusal>
    ensures answer { result ≡ answer_of (tables_read bytes.now) }
    ensures place { place.new.tables ≡ held_after (tables_read bytes.now) place.old.tables }
    ensures law { Packs bytes.now result place.new.tables }
{
    let tables = read_tables(bytes)?;
    *place = Universe::holding(tables);
    Ok(())
}
