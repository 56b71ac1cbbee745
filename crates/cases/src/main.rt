// Worked cases: the program reads tables of inputs from its data files, and prints what the libraries answer to each.
// Its expected output is made by another implementation of the rules, tools/reference.py.
#![tactic(auto)]

mod draft_rows;
mod file_rows;
mod host_rows;
mod plan_rows;
mod rows;
mod run_rows;
mod words;

use crate::draft_rows::{draft_text, standing_text};
use crate::file_rows::{orders_text, script_text, universe_text};
use crate::host_rows::{host_text, layered_text};
use crate::plan_rows::{closing_text, plan_text};
use crate::rows::show_table;
use crate::run_rows::run_text;

fn main(rt: HostRuntime) -> anyhow::Result<()> {
    show_table(&rt, "universes", universe_text)?;
    show_table(&rt, "scripts", script_text)?;
    show_table(&rt, "orders", orders_text)?;
    show_table(&rt, "closings", closing_text)?;
    show_table(&rt, "plans", plan_text)?;
    show_table(&rt, "hosts", host_text)?;
    show_table(&rt, "layered", layered_text)?;
    show_table(&rt, "drafts", draft_text)?;
    show_table(&rt, "standing", standing_text)?;
    show_table(&rt, "runs", run_text)
}
