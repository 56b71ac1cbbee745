// The judgement of lines in a universe, with no host.
ghost use Rattle.std.specs.Prelude.{◌≡◌, false, None, Ok, IfOk};
ghost use Rattle.model.specs.Config.{empty};
ghost use Rattle.universe.specs.Held.{universe_in};
ghost use Rattle.hosts.specs.Survey.{has_gap};
ghost use Rattle.hosts.specs.Offences.{offence};
ghost use Rattle.hosts.specs.Answers.{leaves_gap};
ghost use Rattle.table.specs.Table.{held_of, situation_of};
ghost use Rattle.checking.specs.Judging.{judged, length_judged, line_judged, order_judged, replayed};
ghost use Rattle.checking.specs.Passing.{RefusedRightly, RefusedUnless};
ghost use Rattle.checking.specs.Replaying.{Kept, answer_at, answer_of, fault_of_reason, fresh, largest};

use crate::refusal::{CheckRefusal, LineFault};
use hosts::refusal::Reason;
use lines::decode;
use model::order::Order;
use rules::gaps::{Prospect, opens_gap};
use table::limits::Limits;
use table::table::Table;
use universe::held::Universe;

// As much as a table can hold. 256 instances always fit, since a line's instance numbers are at most 255.
const LARGEST: Limits = Limits {
    instances: 256,
    bindings: 2048,
};

// An empty table of the universe, as large as a table can be.
fn fresh_table(universe: Universe) -> Table
    ensures { held_of result ≡ fresh (universe_in universe) }
{
    Table::open(universe, LARGEST)
}

// Whether the order leaves a gap, where nothing has one and the order has no offence: it is looked for where the order
// can open one.
#[tactic(auto, using(crate::proofs::Orders::untested))]
fn does_leave_gap(table: &Table, order: Order) -> bool
    ensures { has_gap (situation_of table.now) ≡ false → offence order (situation_of table.now) ≡ None → result ≡ leaves_gap order (situation_of table.now) }
{
    match order {
        Order::Change { instance, state } => u8::try_from(state).is_ok_and(|state| opens_gap(
            table,
            Prospect::Changed { instance, state },
        )),
        Order::Unbind(binding) => opens_gap(table, Prospect::Unbound(binding)),
        Order::Create { .. } | Order::Bind(_) | Order::Delete { .. } => false,
    }
}

// The fault of an order that the largest table refuses, which it does only for an offence, or a bind as full.
fn fault_of(reason: Reason) -> LineFault
    ensures { result ≡ fault_of_reason reason }
{
    match reason {
        Reason::Illegal(offence) => LineFault::Illegal(offence),
        Reason::Full | Reason::Gap | Reason::Busy => LineFault::TooManyBindings,
    }
}

// Applies the order, or tells why it is bad.
#[tactic(auto, using(crate::proofs::Orders::gap_told, crate::proofs::Orders::done_told, crate::proofs::Orders::done_answer, crate::proofs::Orders::refused_told))]
fn replay_order(table: &mut Table, order: Order) -> Result<(), LineFault>
    requires largest { (held_of table.old).limits ≡ largest }
    requires gap_free { has_gap (situation_of table.old) ≡ false }
    ensures answer { result ≡ answer_of (order_judged (situation_of table.old) order) }
    ensures stands { IfOk result (λ _. order_judged (situation_of table.old) order ≡ Ok (situation_of table.new).config) }
    ensures kept { Kept (held_of table.old) (held_of table.new) }
{
    let leaves_gap = does_leave_gap(table, order);
    table.apply(order).map_err(fault_of)?;
    if leaves_gap {
        return Err(LineFault::Gap);
    }
    Ok(())
}

// Applies the order of the line, or tells why the line is bad.
#[tactic(auto, unfolding(crate::specs::Judging::line_judged))]
fn replay_line(table: &mut Table, line: u32) -> Result<(), LineFault>
    requires largest { (held_of table.old).limits ≡ largest }
    requires gap_free { has_gap (situation_of table.old) ≡ false }
    ensures answer { result ≡ answer_of (line_judged (situation_of table.old) line) }
    ensures stands { IfOk result (λ _. line_judged (situation_of table.old) line ≡ Ok (situation_of table.new).config) }
    ensures kept { Kept (held_of table.old) (held_of table.new) }
{
    let order = decode(line).map_err(|_| LineFault::NotALine)?;
    replay_order(table, order)
}

// Applies the order of the line at the place, or refuses it there.
fn replay_at(table: &mut Table, place: usize, line: u32) -> Result<(), CheckRefusal>
    requires largest { (held_of table.old).limits ≡ largest }
    requires gap_free { has_gap (situation_of table.old) ≡ false }
    ensures answer { result ≡ answer_at place (line_judged (situation_of table.old) line) }
    ensures stands { IfOk result (λ _. line_judged (situation_of table.old) line ≡ Ok (situation_of table.new).config) }
    ensures kept { Kept (held_of table.old) (held_of table.new) }
{
    replay_line(table, line).map_err(|fault| CheckRefusal::AtLine { place, fault })
}

// Refused where there are no lines, or too many.
pub(crate) fn judge_length(lines: &[u32]) -> Result<(), CheckRefusal>
    ensures { result ≡ length_judged lines.now }
{
    if !(1..=32768).contains(&lines.len()) {
        return Err(CheckRefusal::Length);
    }
    Ok(())
}

// Replays the lines from empty, up to the first that is bad.
#[tactic(auto, using(crate::proofs::Turns::turn_end, crate::proofs::Turns::turn_last))]
pub(crate) fn replay(universe: Universe, lines: &[u32]) -> Result<(), CheckRefusal>
    ensures { result ≡ replayed (universe_in universe) 0 empty lines.now }
{
    let mut table = fresh_table(universe);
    for (place, line) in lines.iter().enumerate() {
        replay_at(&mut table, place, *line)?;
    }
    Ok(())
}

// Judges the lines in the universe: they pass, or the refusal.
#[tactic(auto, using(crate::proofs::Judged::refused_unless, crate::proofs::Judged::refused_after, crate::proofs::FirstBad::length_refused, crate::proofs::FirstBad::told_first))]
pub fn judge(universe: &Universe, lines: &[u32]) -> Result<(), CheckRefusal>
    ensures answer { result ≡ judged (universe_in universe.now) lines.now }
    ensures law { RefusedUnless (universe_in universe.now) lines.now result }
    ensures refused { RefusedRightly ⊥ (universe_in universe.now) lines.now result }
{
    judge_length(lines)?;
    replay(*universe, lines)
}
