// Rows of orders that hosts are given.
use crate::rows::{Lack, unless_lacking};
use crate::words::listed_options;
use cloud::Cloud;
use console::failure::Failure;
use console::hex::parse_hex;
use console::report::read_universe;
use harbour::universe_file;
use hosting::host_report;
use layers::verifying::Verifying;
use model::order::Order;
use piles::pile_report;
use std::alloc::Global;
use table::limits::Limits;
use text::parse_order;
use universe::held::Universe;

// The largest limits of a cloud.
pub(crate) const LARGEST: Limits = Limits {
    instances: 256,
    bindings: 2048,
};

// The orders of a text, with semicolons between them.
fn listed_orders(alloc: Global, text: &str) -> Result<Vec<Order>, Failure<Lack>> {
    let mut orders = Vec::new(alloc);
    for part in text.split(';') {
        let order = part.trim();
        if !order.is_empty() {
            orders.push(parse_order(order.as_bytes()).ok_or(Lack::Orders)?)?;
        }
    }
    Ok(orders)
}

// The universe whose packed file the digits write.
fn listed_universe(alloc: Global, digits: &str) -> Result<Universe, Failure<Lack>> {
    let file = unless_lacking(parse_hex(alloc, digits.as_bytes()), Lack::Universe)?;
    unless_lacking(read_universe(alloc, &file), Lack::Universe)
}

// The two parts of a row, which have a bar between them.
fn split_row(row: &str) -> Result<(&str, &str), Lack> {
    row.split_once(" | ").ok_or(Lack::Bar)
}

// What a fresh host answers to orders; the universe and the options stand before a bar, the orders behind it.
pub(crate) fn host_text(alloc: Global, row: &str) -> Result<String, Failure<Lack>> {
    let (host, orders) = split_row(row)?;
    let (digits, options) = host.split_once(" ").unwrap_or(("", ""));
    let universe = listed_universe(alloc, digits)?;
    let options = listed_options(options).map_err(|_| Lack::Options)?;
    let orders = listed_orders(alloc, orders)?;
    Ok(pile_report(alloc, universe, options, &orders)?)
}

// What a cloud of the harbour answers to the orders before a bar, and then a layer over it to those behind.
pub(crate) fn layered_text(alloc: Global, row: &str) -> Result<String, Failure<Lack>> {
    let (before, after) = split_row(row)?;
    let universe = unless_lacking(read_universe(alloc, &universe_file()), Lack::Universe)?;
    let before = listed_orders(alloc, before)?;
    let after = listed_orders(alloc, after)?;
    let mut cloud = Cloud::open(universe, LARGEST, 0);
    let mut text = host_report(alloc, &mut cloud, &before)?;
    let mut layer = Verifying::over(cloud);
    text.push_str(&host_report(alloc, &mut layer, &after)?)?;
    Ok(text)
}
