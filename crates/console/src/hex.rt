// Bytes written as hexadecimal digits.
ghost use Rattle.std.specs.Prelude.{◌≡◌, ok_or, vec_items};
ghost use Rattle.console.specs.Hex.{byte_of, bytes_of, digit_of, pairs_of};
ghost use Rattle.console.specs.Told.{Told};

use crate::failure::Failure;
use std::alloc::Global;

// A word that is no pairs of hexadecimal digits.
#[derive(Clone, Copy, PartialEq, Eq, Debug)]
pub struct NotHex;

// The value of a digit.
fn digit(byte: u8) -> Option<u8>
    ensures { result ≡ digit_of byte }
{
    match byte {
        b'0'..=b'9' => Some(byte - b'0'),
        b'a'..=b'f' => Some(byte - b'a' + 10),
        b'A'..=b'F' => Some(byte - b'A' + 10),
        _ => None,
    }
}

// The byte of two digits.
fn byte_of(high: u8, low: u8) -> Option<u8>
    ensures { result ≡ byte_of (digit_of high) (digit_of low) }
{
    Some(digit(high)? * 16 + digit(low)?)
}

// The bytes of pairs of digits.
#[tactic(auto, using(crate::proofs::HexTurns::hex_failed, crate::proofs::HexTurns::hex_all))]
fn read_pairs(alloc: Global, pairs: &[[u8; 2]]) -> Result<Vec<u8>, Failure<NotHex>>
    ensures { Told vec_items (λ e. e) result (ok_or (pairs_of pairs.now) (record {})) }
{
    let mut bytes = Vec::new(alloc);
    for [high, low] in pairs {
        let byte = byte_of(*high, *low).ok_or(Failure::Refused(NotHex))?;
        bytes.push(byte)?;
    }
    Ok(bytes)
}

// The bytes that a word of hexadecimal digits writes, two for each.
pub fn parse_hex(alloc: Global, word: &[u8]) -> Result<Vec<u8>, Failure<NotHex>>
    ensures { Told vec_items (λ e. e) result (ok_or (bytes_of word.now) (record {})) }
{
    let (pairs, []) = word.as_chunks::<2>() else {
        return Err(Failure::Refused(NotHex));
    };
    read_pairs(alloc, pairs)
}
