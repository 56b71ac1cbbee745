// The packed line code of orders: one order in one number of 32 bits.
//
// The fields of a line, from the most significant bit: operation 3 bits, first instance 8,
// second instance 8, port 5, type 4, state 3, and one spare bit. Fields that an order has no
// use for, and the spare bit, are zero.
#![tactic(auto)]

ghost use Rattle.std.specs.Prelude.{◌≡◌};
ghost use Rattle.lines.specs.Line.{encoded, decoded, LinesBounded, RoundTrip};

mod fields;
pub mod refusal;

use fields::Fields;
use model::order::Order;
use refusal::LineRefusal;

// The line of an order; refused where a number of the order is too large for its field.
pub fn encode(order: Order) -> Result<u32, LineRefusal>
    ensures { result ≡ encoded order }
{
    u32::try_from(Fields::from(order))
}

// The order of a line; refused where the number is no line.
pub fn decode(line: u32) -> Result<Order, LineRefusal>
    ensures { result ≡ decoded line }
{
    Order::try_from(Fields::from(line))
}

// The laws of the code hold: each order that has a line comes back from it, each number that tells
// an order is the line of that order, and every line has 32 bits.
pub fn laws_hold()
    ensures trip { RoundTrip }
    ensures bounded { LinesBounded }
{}
