// The text about a closing order.
ghost use Rattle.std.specs.Prelude.{◌≡◌, ◌==◌, IfOk, slice_get, length, string_bytes};
ghost use Rattle.universe.specs.Reading.{tables_read};
ghost use Rattle.closing.specs.Order.{pairs_in_order, universe_in_order};
ghost use Rattle.console.specs.Told.{Told};
ghost use Rattle.planning.specs.Closing.{closing_report_of, closing_text_of, number_unless, pair_line_of, pair_lines_of, port_line_of, port_lines_of, rank_text};

use closing::order::ClosingOrder;
use console::failure::Failure;
use console::report::read_universe;
use model::pair::Pair;
use std::alloc::{AllocError, Global};

// The number, or a dash in its place.
fn number_unless(alloc: Global, dash: bool, number: usize) -> Result<String, AllocError>
    ensures { IfOk result (λ s. string_bytes s ≡ number_unless dash number) }
{
    if dash {
        format!(in alloc; "-")
    } else {
        format!(in alloc; "{number}")
    }
}

// The line of the listed pair at the rank.
fn pair_line(
    alloc: Global,
    order: &ClosingOrder,
    rank: usize,
    pair: Pair,
) -> Result<String, AllocError>
    ensures { IfOk result (λ s. string_bytes s ≡ pair_line_of (universe_in_order order.now) (pairs_in_order order.now) rank pair) }
{
    let Pair { kind, state } = pair;
    let parent = number_unless(alloc, state == 0, order.parent(pair))?;
    format!(in alloc; "{rank} {kind}/{state} parent {parent}\n")
}

// The line at the rank; none where no pair has it.
fn rank_line(alloc: Global, order: &ClosingOrder, rank: usize) -> Result<String, AllocError>
    ensures { IfOk result (λ s. string_bytes s ≡ rank_text (universe_in_order order.now) (pairs_in_order order.now) rank (slice_get (pairs_in_order order.now) rank)) }
{
    match order.pair(rank) {
        Some(pair) => pair_line(alloc, order, rank, pair),
        None => Ok(String::new(alloc)),
    }
}

// The line of the port.
fn port_line(alloc: Global, order: &ClosingOrder, port: u32) -> Result<String, AllocError>
    ensures { IfOk result (λ s. string_bytes s ≡ port_line_of (universe_in_order order.now) (pairs_in_order order.now) port) }
{
    let supplier = order.supplier(port);
    let supplier = number_unless(alloc, supplier == order.len(), supplier)?;
    format!(in alloc; "port {port} supplier {supplier}\n")
}

// The lines of the listed pairs, by rank.
#[tactic(auto, using(crate::proofs::Lines::no_rows, crate::proofs::Lines::next_row))]
fn pair_lines(alloc: Global, order: &ClosingOrder) -> Result<String, AllocError>
    ensures { IfOk result (λ s. string_bytes s ≡ pair_lines_of (universe_in_order order.now) (pairs_in_order order.now)) }
{
    let mut text = String::new(alloc);
    for rank in 0..order.len() {
        text.push_str(&rank_line(alloc, order, rank)?)?;
    }
    Ok(text)
}

// The lines of the ports.
#[tactic(auto, using(crate::proofs::Lines::no_rows, crate::proofs::Lines::next_row))]
fn port_lines(alloc: Global, order: &ClosingOrder) -> Result<String, AllocError>
    ensures { IfOk result (λ s. string_bytes s ≡ port_lines_of (universe_in_order order.now) (pairs_in_order order.now)) }
{
    let mut text = String::new(alloc);
    for port in 0..u32::from(order.universe().ports()) {
        text.push_str(&port_line(alloc, order, port)?)?;
    }
    Ok(text)
}

// What is printed of a closing order: its pairs by rank, then the suppliers of the ports.
pub fn closing_text(alloc: Global, order: &ClosingOrder) -> Result<String, AllocError>
    ensures { IfOk result (λ s. string_bytes s ≡ closing_text_of (universe_in_order order.now) (pairs_in_order order.now)) }
{
    let mut text = pair_lines(alloc, order)?;
    text.push_str(&port_lines(alloc, order)?)?;
    Ok(text)
}

// What is printed of a universe file: the closing order of the universe, or the refusal of the file.
pub fn closing_report(alloc: Global, bytes: &[u8]) -> Result<String, Failure<String>>
    ensures { Told string_bytes string_bytes result (closing_report_of (tables_read bytes.now)) }
{
    let universe = read_universe(alloc, bytes)?;
    Ok(closing_text(alloc, &ClosingOrder::of(&universe))?)
}
