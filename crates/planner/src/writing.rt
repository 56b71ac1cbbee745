// Writing the lines of a script.
ghost use Rattle.std.specs.Prelude.{◌≡◌, ◌∷◌, [], ◌++◌, ◌<◌, ◌≤◌, ◌^◌, ◌&&◌, ℕ, Ok};
ghost use Rattle.std.specs.Prelude.{IsOk, drop, length, map, nat_lt, not, position, slice_index};
ghost use Rattle.std.specs.List.{All};
ghost use Rattle.model.specs.declared.order.Order.TheVariants.{Change, Create};
ghost use Rattle.lines.specs.Line.{encoded};
ghost use Rattle.universe.specs.Sets.{has};
ghost use Rattle.universe.specs.Tables.{entry_at};
ghost use Rattle.plans.specs.Lists.{pair_at, rank_of, same_pair};
ghost use Rattle.plans.specs.Plan.{binding, build, port_orders, script_of, step, walk};
ghost use Rattle.closing.specs.Order.{pairs_in_order};
ghost use Rattle.planner.specs.Writing.{AllListed, PlanFits, Wrote, line_of, linked, links, plan_on};
ghost use Rattle.planner.specs.Planning.{list_after, plan_answer};

use crate::path::{pair_at, path_of};
use crate::plan::MOST_LINES;
use crate::refusal::PlanRefusal;
use closing::order::ClosingOrder;
use lines::encode;
use model::binding::Binding;
use model::order::Order;
use model::pair::Pair;
use std::array;
use universe::sets::Field;

// What is planned: the closing order, the pair of each instance by its number, and for each port
// the number of the instance that supplies it.
#[derive(Clone, Copy)]
pub(crate) struct Plan<'a> {
    order: &'a ClosingOrder,
    pairs: &'a [Pair],
    suppliers: [u8; 32],
    ghost planned: { PlanFits order.now pairs.now suppliers },
}

// The two orders that a binding is made into. An enum and no closure, since clauses speak of it.
#[derive(Clone, Copy)]
enum Link {
    Made,
    Ended,
}

impl Link {
    // The order for the binding.
    fn order(self, binding: Binding) -> Order
        ensures { result ≡ linked self binding }
    {
        match self {
            Link::Made => Order::Bind(binding),
            Link::Ended => Order::Unbind(binding),
        }
    }
}

// The place of the pair in the list, if it is in it.
fn place_of(pairs: &[Pair], pair: Pair) -> Option<usize>
    ensures { result ≡ position (same_pair pair) pairs.now }
{
    pairs.iter().position(|other| pair == *other)
}

// The number of the pair: its place in the list, or the list's length where it is not in it.
#[tactic(auto, using(closing::proofs::Lookups::or_length))]
fn number_of(pairs: &[Pair], pair: Pair) -> usize
    ensures { result ≡ rank_of pairs.now pair }
{
    place_of(pairs, pair).unwrap_or(pairs.len())
}

// The number of the pair that supplies the port.
#[tactic(auto, using(crate::proofs::Linking::rank_most))]
fn supplier_of(order: &ClosingOrder, pairs: &[Pair], port: u32) -> u8
    requires { length pairs.now ≤ 128 }
    ensures { result ≡ (plan_on order.now pairs.now).supplier port }
{
    let supplier = pair_at(order, order.supplier(port));
    // `as` loses nothing: there are at most 128 pairs.
    number_of(pairs, supplier) as u8
}

// For each port the number of the pair that supplies it.
fn suppliers_of(order: &ClosingOrder, pairs: &[Pair]) -> [u8; 32]
    requires { length pairs.now ≤ 128 }
    ensures { (p : ℕ) → p < 32 → slice_index result p ≡ (plan_on order.now pairs.now).supplier p }
{
    array::from_fn(|port| supplier_of(order, pairs, port as u32))
}

// The ports that are in the set `present` and not in the set `absent`.
#[tactic(auto, using(crate::proofs::Linking::new_told))]
fn new_ports(absent: u32, present: u32) -> u32
    ensures { (p : ℕ) → has 32 result p ≡ (has 32 present p && not (has 32 absent p)) }
{
    present & !absent
}

// The order to create an instance of a type.
fn create(number: u8, kind: u8) -> Order
    ensures { result ≡ Create number kind }
{
    Order::Create {
        instance: u32::from(number),
        kind: u32::from(kind),
    }
}

// The order to change the state of an instance.
fn change(number: u8, state: u8) -> Order
    ensures { result ≡ Change number state }
{
    Order::Change {
        instance: u32::from(number),
        state: u32::from(state),
    }
}

// The line of an order that has one.
fn line_of(order: Order) -> u32
    requires { IsOk (encoded order) }
    ensures { result ≡ line_of order }
{
    encode(order).unwrap()
}

// Writes the line of the order at the place, if the list has that place, and answers the next.
fn put(lines: &mut [u32], place: usize, order: Order) -> usize
    requires { IsOk (encoded order) }
    ensures { Wrote lines.old place (order ∷ []) lines.new result }
{
    if place >= lines.len() {
        return place.saturating_add(1);
    }
    lines[place] = line_of(order);
    place + 1
}

// What writes lines answers the place behind them.
impl<'a> Plan<'a> {
    ghost use Rattle.planner.specs.Scripts.{plan_of, universe_planned};

    // The plan for listed pairs.
    pub(crate) fn of(order: &'a ClosingOrder, pairs: &'a [Pair]) -> Self
        requires few { length pairs.now ≤ 128 }
        requires listed { AllListed (pairs_in_order order.now) pairs.now }
        ensures order { result.order.now ≡ order.now }
        ensures pairs { result.pairs.now ≡ pairs.now }
    {
        Plan {
            order,
            pairs,
            suppliers: suppliers_of(order, pairs),
        }
    }

    // The pair of the instance.
    fn pair(&self, number: u8) -> Pair
        requires { number < length self.now.pairs.now }
        ensures { result ≡ pair_at self.now.pairs.now number }
    {
        self.pairs[usize::from(number)]
    }

    // The number of the instance that supplies the port. `as`, since `usize` has no `From<u32>`.
    fn supplier(&self, port: u32) -> u8
        requires { port < 32 }
        ensures { result ≡ (plan_of self.now).supplier port }
    {
        self.suppliers[port as usize]
    }

    // The binding of the instance to the supplier of the port.
    fn binding(&self, port: u32, number: u8) -> Binding
        requires { port < 32 }
        ensures { result ≡ binding port ((plan_of self.now).supplier port) number }
    {
        Binding {
            port,
            provider: u32::from(self.supplier(port)),
            requirer: u32::from(number),
        }
    }

    // The ports that the type of the instance requires in the state.
    fn required(&self, number: u8, state: u8) -> u32
        requires { number < length self.now.pairs.now }
        ensures { result ≡ (entry_at self.now.order.now.universe.tables ((plan_of self.now).kind number) state).required }
    {
        let pair = self.pair(number);
        self.order
            .universe()
            .entry(u32::from(pair.kind), u32::from(state))
            .required
    }

    // Writes the order for the binding of the instance to the supplier of the port.
    #[tactic(auto, using(crate::proofs::Linking::link_in_line, crate::proofs::Linking::rank_most))]
    fn write_link(
        &self,
        lines: &mut [u32],
        place: usize,
        link: Link,
        number: u8,
        port: u32,
    ) -> usize
        requires { port < 32 }
        ensures { Wrote lines.old place (linked link (binding port ((plan_of self.now).supplier port) number) ∷ []) lines.new result }
    {
        put(lines, place, link.order(self.binding(port, number)))
    }

    // Writes, in port order, for each port of the set, the order for the binding to its supplier.
    fn write_ports(
        &self,
        lines: &mut [u32],
        place: usize,
        link: Link,
        number: u8,
        ports: u32,
    ) -> usize
        ensures { Wrote lines.old place (links (universe_planned self.now).ports link (plan_of self.now).supplier number ports) lines.new result }
    {
        let mut place = place;
        for port in 0..u32::from(self.order.universe().ports()) {
            if ports.has(port) {
                place = self.write_link(lines, place, link, number, port);
            }
        }
        place
    }

    // Writes, in port order, for each port that the instance requires in the state `present` and not in
    // the state `absent`, the order for the binding to its supplier.
    fn write_links(
        &self,
        lines: &mut [u32],
        place: usize,
        link: Link,
        number: u8,
        absent: u8,
        present: u8,
    ) -> usize
        requires { number < length self.now.pairs.now }
        ensures { Wrote lines.old place (port_orders (linked link) (universe_planned self.now) (plan_of self.now) number absent present) lines.new result }
    {
        let absent = self.required(number, absent);
        let present = self.required(number, present);
        let ports = new_ports(absent, present);
        if ports == 0 {
            return place;
        }
        self.write_ports(lines, place, link, number, ports)
    }

    // Writes the step of the instance from one state to another: binds, the change, unbinds.
    #[tactic(auto, using(crate::proofs::Linking::change_in_line, crate::proofs::Placing::three_lines, crate::proofs::Placing::three_places), unfolding(plans::specs::Plan::step))]
    fn write_step(&self, lines: &mut [u32], place: usize, number: u8, from: u8, to: u8) -> usize
        requires there { number < length self.now.pairs.now }
        requires small { to < 8 }
        ensures { Wrote lines.old place (step (universe_planned self.now) (plan_of self.now) number from to) lines.new result }
    {
        let place = self.write_links(lines, place, Link::Made, number, from, to);
        let place = put(lines, place, change(number, to));
        self.write_links(lines, place, Link::Ended, number, to, from)
    }

    // Writes the steps of the instance from state 0 over the states.
    fn write_walk(&self, lines: &mut [u32], place: usize, number: u8, states: &[u8]) -> usize
        requires there { number < length self.now.pairs.now }
        requires small { All (λ q. q < 8) states.now }
        ensures { Wrote lines.old place (walk (universe_planned self.now) (plan_of self.now) number 0 states.now) lines.new result }
    {
        let mut place = place;
        let mut from = 0;
        for to in states {
            place = self.write_step(lines, place, number, from, *to);
            from = *to;
        }
        place
    }

    // Writes the create of the instance, and the steps of its pair's path.
    fn write_instance(&self, lines: &mut [u32], place: usize, number: u8) -> usize
        requires { number < length self.now.pairs.now }
        ensures { Wrote lines.old place (build (universe_planned self.now) (plan_of self.now) number) lines.new result }
    {
        let pair = self.pair(number);
        let place = put(lines, place, create(number, pair.kind));
        let path = path_of(self.order, pair);
        self.write_walk(lines, place, number, path.states())
    }

    // Writes the whole script, as far as the list has places, and answers how many lines it has.
    pub(crate) fn write(&self, lines: &mut [u32]) -> usize
        ensures { Wrote lines.old 0 (script_of (universe_planned self.now) (plan_of self.now)) lines.new result }
    {
        let mut place = 0;
        // `as` loses nothing: there are at most 128 pairs.
        for number in 0..self.pairs.len() as u8 {
            place = self.write_instance(lines, place, number);
        }
        place
    }

    // How many lines the script has.
    fn count(&self) -> usize
        ensures { result ≡ length (script_of (universe_planned self.now) (plan_of self.now)) }
    {
        self.write(&mut [])
    }

    // Whether the list has fewer places than the script has lines. A list with places for every script
    // needs no count.
    fn is_short(&self, lines: &[u32]) -> bool
        requires { length self.now.pairs.now ≤ 48 }
        ensures { result ≡ nat_lt (length lines.now) (length (script_of (universe_planned self.now) (plan_of self.now))) }
    {
        lines.len() < MOST_LINES && lines.len() < self.count()
    }

    // Writes the script into the list, which has room for it, and answers how many lines it has.
    fn write_whole(&self, lines: &mut [u32]) -> usize
        requires { length (script_of (universe_planned self.now) (plan_of self.now)) ≤ length lines.now }
        ensures count { result ≡ length (script_of (universe_planned self.now) (plan_of self.now)) }
        ensures lines { lines.new ≡ map line_of (script_of (universe_planned self.now) (plan_of self.now)) ++ drop (length (script_of (universe_planned self.now) (plan_of self.now))) lines.old }
    {
        self.write(lines)
    }

    // Writes the script into the list, and answers how many lines it has; refused where the list
    // has fewer places.
    pub(crate) fn write_into(&self, lines: &mut [u32]) -> Result<usize, PlanRefusal>
        requires { length self.now.pairs.now ≤ 48 }
        ensures answer { result ≡ plan_answer (Ok (script_of (universe_planned self.now) (plan_of self.now))) (length lines.old) }
        ensures lines { lines.new ≡ list_after (Ok (script_of (universe_planned self.now) (plan_of self.now))) lines.old }
    {
        if self.is_short(lines) {
            return Err(PlanRefusal::Room);
        }
        Ok(self.write_whole(lines))
    }
}
