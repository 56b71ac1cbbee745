// Scripts as files and texts: what the commands `lines` and `pack` read, print and write.
#![tactic(auto)]

ghost use Rattle.std.specs.Prelude.{◌≡◌, ◌+◌, ◌^◌, ◌<◌, flat_map, map, is_err, ok_or, option_to_list, IfOk, MatchResult, vec_items, string_bytes, [], Ok};
ghost use Rattle.console.specs.Told.{Told, report};
ghost use Rattle.scripts.specs.Scripts.{pack_text_of, refusal_text_of, line_text, lines_text, lines_refused};
ghost use Rattle.scripts.specs.Scripts.{word_of, script_lines_of, line_bytes_of, line_of, packed, packed_line, passed, line_orders, orders_of};

use console::failure::Failure;
use lines::refusal::LineRefusal;
use lines::{decode, encode};
use model::order::Order;
use std::alloc::{AllocError, Global};
use text::{order_text, parse_order};

// A script whose length is no multiple of four.
#[derive(Clone, Copy, PartialEq, Eq, Debug)]
pub struct CutShort;

// An order that has no line: why, and its place from 0.
#[derive(Clone, Copy, PartialEq, Eq, Debug)]
pub struct PackFault {
    pub refusal: LineRefusal,
    pub place: usize,
}

// A line of a text that writes no order, by its number from 1.
#[derive(Clone, Copy, PartialEq, Eq, Debug)]
pub struct NoOrder {
    pub line: usize,
}

// The text `N lines`, also of one.
pub fn pack_text(alloc: Global, lines: usize) -> Result<String, AllocError>
    ensures { IfOk result (λ s. string_bytes s ≡ pack_text_of lines) }
{
    format!(in alloc; "{lines} lines\n")
}

// The text `refused N at PLACE`, of any number.
pub fn refusal_text(alloc: Global, number: u8, place: usize) -> Result<String, AllocError>
    ensures { IfOk result (λ s. string_bytes s ≡ refusal_text_of number place) }
{
    format!(in alloc; "refused {number} at {place}\n")
}

// What is printed of one line.
fn line_report(
    alloc: Global,
    place: usize,
    order: Result<Order, LineRefusal>,
) -> Result<String, AllocError>
    ensures { IfOk result (λ s. string_bytes s ≡ line_text place order) }
{
    match order {
        Ok(order) => {
            let mut text = order_text(alloc, order)?;
            text.push('\n')?;
            Ok(text)
        }
        Err(refusal) => refusal_text(alloc, refusal.number(), place),
    }
}

// What is printed of the lines, up to the first that is refused.
#[tactic(auto, using(crate::proofs::ScriptTurns::report_start, crate::proofs::ScriptTurns::report_end))]
pub fn lines_report(alloc: Global, lines: &[u32]) -> Result<String, Failure<String>>
    ensures { Told string_bytes string_bytes result (report (lines_refused lines.now) (lines_text 0 lines.now)) }
{
    let mut text = String::new(alloc);
    for (place, line) in lines.iter().enumerate() {
        let order = decode(*line);
        text.push_str(&line_report(alloc, place, order)?)?;
        if order.is_err() {
            return Err(Failure::Refused(text));
        }
    }
    Ok(text)
}

// The numbers in words of four bytes, the most significant first.
fn read_words(alloc: Global, words: &[[u8; 4]]) -> Result<Vec<u32>, AllocError>
    ensures { IfOk result (λ v. v.items ≡ map word_of words.now) }
{
    words
        .iter()
        .map(|word| u32::from_be_bytes(*word))
        .collect(alloc)
}

// The lines of a script file.
pub fn script_lines(alloc: Global, bytes: &[u8]) -> Result<Vec<u32>, Failure<CutShort>>
    ensures { Told vec_items (λ e. e) result (ok_or (script_lines_of bytes.now) (record {})) }
{
    let (words, []) = bytes.as_chunks::<4>() else {
        return Err(Failure::Refused(CutShort));
    };
    Ok(read_words(alloc, words)?)
}

// The bytes of a script file with the lines.
pub fn script_bytes(alloc: Global, lines: &[u32]) -> Result<Vec<u8>, AllocError>
    ensures { IfOk result (λ v. v.items ≡ flat_map line_bytes_of lines.now) }
{
    let mut bytes = Vec::new(alloc);
    for line in lines {
        bytes.extend_from_slice(&line.to_be_bytes())?;
    }
    Ok(bytes)
}

// The bytes of the line of an order, which stands at a place.
#[tactic(auto, unfolding(crate::specs::Scripts::line_of))]
fn pack_order(place: usize, order: Order) -> Result<[u8; 4], Failure<PackFault>>
    ensures { Told (λ l. l) (λ e. e) result (packed_line place (line_of order) (Ok [])) }
{
    let line = encode(order).map_err(|refusal| Failure::Refused(PackFault { refusal, place }))?;
    Ok(line.to_be_bytes())
}

// The packed script of the orders, or the first order that has no line.
#[tactic(auto, using(crate::proofs::PackTurns::packed_more, crate::proofs::PackTurns::packed_end, crate::proofs::PackTurns::packed_failed))]
pub fn pack_orders(alloc: Global, orders: &[Order]) -> Result<Vec<u8>, Failure<PackFault>>
    ensures { Told vec_items (λ e. e) result (packed 0 orders.now) }
{
    let mut bytes = Vec::new(alloc);
    for (place, order) in orders.iter().enumerate() {
        bytes.extend_from_slice(&pack_order(place, *order)?)?;
    }
    Ok(bytes)
}

// The line is empty or begins with `#`.
fn is_passed_over(line: &[u8]) -> bool
    ensures { result ≡ passed line.now }
{
    matches!(line, [] | [b'#', ..])
}

// The order of a line that has so many before it; none where the line is passed over.
#[tactic(auto, unfolding(crate::specs::Scripts::line_orders))]
fn parse_line(before: usize, line: &[u8]) -> Result<Option<Order>, NoOrder>
    requires { before + 1 < 2 ^ 64 }
    ensures { MatchResult result (λ o. line_orders line.now ≡ Some (option_to_list o)) (λ e. (line_orders line.now ≡ None) × (e.line ≡ before + 1)) }
{
    if is_passed_over(line) {
        return Ok(None);
    }
    parse_order(line)
        .map(Some)
        .ok_or(NoOrder { line: before + 1 })
}

// The orders of a text, or the first line that cannot be read.
#[tactic(auto, using(crate::proofs::ParseTurns::orders_start))]
pub fn parse_orders(alloc: Global, text: &[u8]) -> Result<Vec<Order>, Failure<NoOrder>>
    ensures { Told vec_items (λ (e : NoOrder). e.line) result (orders_of text.now) }
{
    let mut orders = Vec::new(alloc);
    for (before, line) in text.split(|byte| *byte == b'\n').enumerate() {
        match parse_line(before, line) {
            Ok(Some(order)) => orders.push(order)?,
            Ok(None) => {}
            Err(no_order) => return Err(Failure::Refused(no_order)),
        }
    }
    Ok(orders)
}
