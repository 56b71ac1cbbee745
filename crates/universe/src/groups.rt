// The field groups of a universe file, each split off the front of the bytes.
ghost use Rattle.std.specs.Prelude.{◌≡◌, ◌≤◌, IfOk};
ghost use Rattle.universe.specs.Reading.{Splits, count_read, count_size, header_read, header_size, state_read, state_size};

use crate::refusal::UniverseRefusal;
use crate::sets::Field;
use crate::tables::State;

// The counts of types and ports.
#[derive(Clone, Copy)]
pub struct Header {
    pub types: u8,
    pub ports: u8,
}

// The header at the front of the bytes, and the bytes behind it.
#[tactic(auto, unfolding(crate::specs::Reading::header_read))]
pub fn read_header(bytes: &[u8]) -> Result<(Header, &[u8]), UniverseRefusal>
    ensures value { Splits header_size result (header_read bytes.now) bytes.now }
    ensures bound { IfOk result (λ r. r.0.types ≤ 16) }
{
    let (bits, rest) = bytes.split_first_chunk().ok_or(UniverseRefusal::Length)?;
    let bits = u16::from_be_bytes(*bits);
    let types = bits >> 11;
    let ports = (bits >> 5) % 64;
    if !(1..=16).contains(&types) || !(0..=32).contains(&ports) {
        return Err(UniverseRefusal::Count);
    }
    if bits % 32 != 0 {
        return Err(UniverseRefusal::ZeroBit);
    }
    // `as`, here and below where a number is known to fit: `TryFrom` would have an error where none can come.
    let header = Header {
        types: types as u8,
        ports: ports as u8,
    };
    Ok((header, rest))
}

// The state count at the front of the bytes, and the bytes behind it.
#[tactic(auto, unfolding(crate::specs::Reading::count_read))]
pub fn read_count(bytes: &[u8]) -> Result<(u8, &[u8]), UniverseRefusal>
    ensures value { Splits count_size result (count_read bytes.now) bytes.now }
    ensures bound { IfOk result (λ r. r.0 ≤ 8) }
{
    let (bits, rest) = bytes.split_first().ok_or(UniverseRefusal::Length)?;
    let count = bits >> 4;
    if !(1..=8).contains(&count) {
        return Err(UniverseRefusal::Count);
    }
    if bits % 16 != 0 {
        return Err(UniverseRefusal::ZeroBit);
    }
    Ok((count, rest))
}

// The entry of one of the states of a type, the state `number` of `count`, at the front of the bytes, and the bytes behind it.
#[tactic(auto, unfolding(crate::specs::Reading::state_read))]
pub fn read_state(
    ports: u8,
    count: u8,
    number: u8,
    bytes: &[u8],
) -> Result<(State, &[u8]), UniverseRefusal>
    ensures { Splits state_size result (state_read ports count number bytes.now) bytes.now }
{
    let (provided, rest) = bytes.split_first_chunk().ok_or(UniverseRefusal::Length)?;
    let (required, rest) = rest.split_first_chunk().ok_or(UniverseRefusal::Length)?;
    let (successors, rest) = rest.split_first().ok_or(UniverseRefusal::Length)?;
    let state = State {
        provided: u32::from_be_bytes(*provided),
        required: u32::from_be_bytes(*required),
        successors: *successors,
    };
    let ports = u32::from(ports);
    if state.provided.has_from(ports) || state.required.has_from(ports) {
        return Err(UniverseRefusal::Port);
    }
    if state.successors.has(u32::from(number)) || state.successors.has_from(u32::from(count)) {
        return Err(UniverseRefusal::Successor);
    }
    if number == 0 && state.required != 0 {
        return Err(UniverseRefusal::InitialState);
    }
    Ok((state, rest))
}
