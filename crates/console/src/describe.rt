// The text about a universe file.
ghost use Rattle.std.specs.Iterator.{Drains, IsFinite};
ghost use Rattle.console.specs.Told.{Told, report};
ghost use Rattle.std.specs.Prelude.{◌≡◌, ℕ, List, codes, is_err, IfOk, string_bytes, OnOk};
ghost use Rattle.universe.specs.Reading.{tables_read};
ghost use Rattle.universe.specs.Held.{universe_in};
ghost use Rattle.console.specs.Described.{counts_line_of, listed_with, report_of, labelled_list, list_of, set_text_of, state_line_of, type_line_of, type_lines_of, universe_text_of};

use crate::failure::Failure;
use crate::report::read_universe;
use std::alloc::{AllocError, Global};
use universe::held::Universe;

// Adds the number to the list, behind a comma if it is not the first.
fn push_number(alloc: Global, list: &mut String, number: u32) -> Result<(), AllocError>
    ensures { OnOk result (string_bytes list.new ≡ listed_with (string_bytes list.old) number) }
{
    let separator = if list.is_empty() { "" } else { "," };
    list.push_str(&format!(in alloc; "{separator}{number}")?)
}

// The label, and the numbers with commas between them, or a dash where there are none.
fn labelled<I: Iterator<Item = u32>>(
    alloc: Global,
    label: &str,
    numbers: I,
) -> Result<String, AllocError>
    requires can { I.can_next numbers }
    requires finite { IsFinite (I.remaining numbers) }
    ensures { IfOk result (λ s. (ns : List ℕ) × Drains I.next_gives numbers ns × (string_bytes s ≡ labelled_list label.now (list_of ns))) }
{
    let mut list = String::new(alloc);
    for number in numbers {
        push_number(alloc, &mut list, number)?;
    }
    let shown = if list.is_empty() { "-" } else { &list };
    format!(in alloc; "{label} {shown}")
}

// The texts of the three sets of a state: what it provides, what it requires, and which states may follow.
fn set_texts(
    alloc: Global,
    universe: &Universe,
    kind: u32,
    state: u32,
) -> Result<(String, String, String), AllocError>
    ensures { let u = universe_in universe.now in IfOk result (λ s. (string_bytes s.0 ≡ set_text_of (codes "provides") (u.provides kind state) u.ports) × (string_bytes s.1 ≡ set_text_of (codes "requires") (u.requires kind state) u.ports) × (string_bytes s.2 ≡ set_text_of (codes "next") (u.next kind state) (u.states kind))) }
{
    let ports = 0..u32::from(universe.ports());
    let provided = ports.filter(|port| universe.is_provided(kind, state, *port));
    let provided = labelled(alloc, "provides", provided)?;
    let ports = 0..u32::from(universe.ports());
    let required = ports.filter(|port| universe.is_required(kind, state, *port));
    let required = labelled(alloc, "requires", required)?;
    let states = 0..u32::from(universe.states(kind));
    let next = states.filter(|next| universe.is_successor(kind, state, *next));
    let next = labelled(alloc, "next", next)?;
    Ok((provided, required, next))
}

// The line of one state.
fn state_line(
    alloc: Global,
    universe: &Universe,
    kind: u32,
    state: u32,
) -> Result<String, AllocError>
    ensures { IfOk result (λ s. string_bytes s ≡ state_line_of (universe_in universe.now) kind state) }
{
    let (provided, required, next) = set_texts(alloc, universe, kind, state)?;
    format!(in alloc; "state {kind}/{state}: {provided}, {required}, {next}\n")
}

// The line of a type that has so many states.
fn type_line(alloc: Global, kind: u32, states: u8) -> Result<String, AllocError>
    ensures { IfOk result (λ s. string_bytes s ≡ type_line_of kind states) }
{
    format!(in alloc; "type {kind}: {states} states\n")
}

// The line of one type, and those of its states.
#[tactic(auto, using(crate::proofs::Rows::rows_none, crate::proofs::Rows::rows_more))]
fn type_lines(alloc: Global, universe: &Universe, kind: u32) -> Result<String, AllocError>
    ensures { IfOk result (λ s. string_bytes s ≡ type_lines_of (universe_in universe.now) kind) }
{
    let mut text = type_line(alloc, kind, universe.states(kind))?;
    for state in 0..u32::from(universe.states(kind)) {
        text.push_str(&state_line(alloc, universe, kind, state)?)?;
    }
    Ok(text)
}

// The line of the counts.
fn counts_line(alloc: Global, types: u8, ports: u8) -> Result<String, AllocError>
    ensures { IfOk result (λ s. string_bytes s ≡ counts_line_of types ports) }
{
    format!(in alloc; "types {types}, ports {ports}\n")
}

// What is printed of a universe: its counts, its types and their states.
#[tactic(auto, using(crate::proofs::Rows::rows_none, crate::proofs::Rows::rows_more))]
pub fn universe_text(alloc: Global, universe: &Universe) -> Result<String, AllocError>
    ensures { IfOk result (λ s. string_bytes s ≡ universe_text_of (universe_in universe.now)) }
{
    let mut text = counts_line(alloc, universe.types(), universe.ports())?;
    for kind in 0..u32::from(universe.types()) {
        text.push_str(&type_lines(alloc, universe, kind)?)?;
    }
    Ok(text)
}

// What is printed of a universe file: the text of the universe, or the number of the refusal.
pub fn universe_report(alloc: Global, bytes: &[u8]) -> Result<String, Failure<String>>
    ensures { Told string_bytes string_bytes result (report (is_err (tables_read bytes.now)) (report_of (tables_read bytes.now))) }
{
    let universe = read_universe(alloc, bytes)?;
    Ok(universe_text(alloc, &universe)?)
}
