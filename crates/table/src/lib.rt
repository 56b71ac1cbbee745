// The table of what stands in a universe: instances by number, and bindings in rising order.
#![tactic(auto)]

mod counting;
mod covers;
pub mod limits;
mod orders;
mod ports;
mod records;
mod row;
mod rows;
pub mod table;
mod work;
