// Rows of files in hexadecimal digits: packed universes, packed scripts, and texts of orders.
use crate::rows::{Lack, report_text, unless_lacking};
use console::describe::universe_report;
use console::failure::Failure;
use console::hex::parse_hex;
use model::order::Order;
use scripts::{
    CutShort, NoOrder, PackFault, lines_report, pack_orders, pack_text, parse_orders, refusal_text,
    script_lines,
};
use std::alloc::{AllocError, Global};

// The text of a report, and a line more where it tells otherwise than its outcome.
fn compared_text(report: Result<String, Failure<String>>) -> Result<String, AllocError> {
    let refused = report.is_err();
    let mut text = report_text(report)?;
    if refused != text.as_str().contains("refused") {
        text.push_str("the report says otherwise\n")?;
    }
    Ok(text)
}

// The lines of a packed script.
fn lines_text(alloc: Global, bytes: &[u8]) -> Result<String, AllocError> {
    match script_lines(alloc, bytes) {
        Ok(lines) => compared_text(lines_report(alloc, &lines)),
        Err(failure) => {
            let CutShort = failure.into_refusal()?;
            format!(in alloc; "no whole lines\n")
        }
    }
}

// The packed script of orders, and its lines.
fn packed_text(alloc: Global, orders: &[Order]) -> Result<String, AllocError> {
    match pack_orders(alloc, orders) {
        Ok(bytes) => {
            let mut text = pack_text(alloc, orders.len())?;
            text.push_str(&lines_text(alloc, &bytes)?)?;
            Ok(text)
        }
        Err(failure) => {
            let PackFault { refusal, place } = failure.into_refusal()?;
            refusal_text(alloc, refusal.number(), place)
        }
    }
}

// The bytes that a row writes in hexadecimal digits.
fn row_bytes(alloc: Global, row: &str) -> Result<Vec<u8>, Failure<Lack>> {
    unless_lacking(parse_hex(alloc, row.as_bytes()), Lack::Digits)
}

// What is shown of a packed universe.
pub(crate) fn universe_text(alloc: Global, row: &str) -> Result<String, Failure<Lack>> {
    let bytes = row_bytes(alloc, row)?;
    Ok(compared_text(universe_report(alloc, &bytes))?)
}

// What is shown of a packed script.
pub(crate) fn script_text(alloc: Global, row: &str) -> Result<String, Failure<Lack>> {
    let bytes = row_bytes(alloc, row)?;
    Ok(lines_text(alloc, &bytes)?)
}

// What is shown of a text of orders.
pub(crate) fn orders_text(alloc: Global, row: &str) -> Result<String, Failure<Lack>> {
    let text = row_bytes(alloc, row)?;
    match parse_orders(alloc, &text) {
        Ok(orders) => Ok(packed_text(alloc, &orders)?),
        Err(failure) => {
            let NoOrder { line } = failure.into_refusal()?;
            Ok(format!(in alloc; "line {line} writes no order\n")?)
        }
    }
}
