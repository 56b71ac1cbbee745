// The words of a row.
use crate::rows::{Lack, unless_lacking};
use console::failure::Failure;
use console::hex::parse_hex;
use options::{HostOptions, Layers};
use scripts::script_lines;
use std::alloc::Global;
use text::parse_number;

// The number that a word writes.
pub(crate) fn word_number(word: &str) -> Result<u32, Lack> {
    parse_number(word.as_bytes()).ok_or(Lack::Word)
}

// The bytes that a word writes in hexadecimal digits; a dash writes none.
pub(crate) fn word_bytes(alloc: Global, word: &str) -> Result<Vec<u8>, Failure<Lack>> {
    let digits = if word == "-" { "" } else { word };
    unless_lacking(parse_hex(alloc, digits.as_bytes()), Lack::Word)
}

// The lines of a word: its segments have plus signs between them, and each writes the bytes of lines, which may have
// a star and a count behind them, how often they come.
pub(crate) fn word_lines(alloc: Global, word: &str) -> Result<Vec<u32>, Failure<Lack>> {
    let mut script = Vec::new(alloc);
    for segment in word.split('+') {
        let (bytes, count) = segment.split_once("*").unwrap_or((segment, "1"));
        let lines = unless_lacking(script_lines(alloc, &word_bytes(alloc, bytes)?), Lack::Word)?;
        for _ in 0..word_number(count)? {
            script.extend_from_slice(&lines)?;
        }
    }
    Ok(script)
}

// The layers of a word; a dash for none.
fn word_layers(word: &str) -> Result<Layers, Lack> {
    match word {
        "-" => Ok(Layers::None),
        "" => Err(Lack::Word),
        _ => word.parse().map_err(|_| Lack::Word),
    }
}

// The options of a host, in the first four words.
pub(crate) fn listed_options(text: &str) -> Result<HostOptions, Lack> {
    let mut words = text.split(' ');
    let (Some(instances), Some(bindings), Some(delay), Some(layers)) = (
        words.next(),
        words.next(),
        words.next(),
        words.next(),
    ) else {
        return Err(Lack::Word);
    };
    Ok(HostOptions {
        instances: word_number(instances)?,
        bindings: word_number(bindings)?,
        delay: word_number(delay)?,
        layers: word_layers(layers)?,
    })
}
