// The written form of orders, both ways.
#![tactic(auto)]

ghost use Rattle.std.specs.Prelude.{◌≡◌, ◌==◌, position, IfOk, string_bytes};
ghost use Rattle.std.specs.List.{after_first, before_first};
ghost use Rattle.model.specs.Written.{written};
ghost use Rattle.text.specs.Law.{WrittenLaw};
ghost use Rattle.text.specs.Written.{grown, number_of, two, binding_of, order_of};

use model::binding::Binding;
use model::order::Order;
use std::alloc::{AllocError, Global};

// The order as text: its letter, then its numbers, with single blanks between them.
pub fn order_text(alloc: Global, order: Order) -> Result<String, AllocError>
    ensures { IfOk result (λ s. string_bytes s ≡ written order) }
{
    format!(in alloc; "{order}")
}

// The number with one more digit, if the byte is a digit and the number keeps 32 bits.
fn with_digit(n: u32, byte: u8) -> Option<u32>
    ensures { result ≡ grown n byte }
{
    match byte {
        b'0'..=b'9' => n.checked_mul(10)?.checked_add(u32::from(byte - b'0')),
        _ => None,
    }
}

// The number that one decimal digit or more write, if it has 32 bits. A loop, since for `try_fold` it stays open that its
// answer is the number of all digits.
#[tactic(auto, using(std::proofs::lemmas::List::Folds::fold_stuck))]
pub fn parse_number(digits: &[u8]) -> Option<u32>
    ensures { result ≡ number_of digits.now }
{
    if digits.is_empty() {
        return None;
    }
    let mut number = 0;
    for digit in digits {
        number = with_digit(number, *digit)?;
    }
    Some(number)
}

// The place of the first such byte.
fn place_of(bytes: &[u8], byte: u8) -> Option<usize>
    ensures { result ≡ position (λ x. x == byte) bytes.now }
{
    bytes.iter().position(|other| *other == byte)
}

// What stands before the first such byte, and what after it; where there is none, all and nothing.
pub fn split_at_first(bytes: &[u8], byte: u8) -> (&[u8], &[u8])
    ensures before { result.0.now ≡ before_first (λ x. x == byte) bytes.now }
    ensures after { result.1.now ≡ after_first (λ x. x == byte) bytes.now }
{
    match place_of(bytes, byte) {
        Some(at) => (&bytes[..at], &bytes[at + 1..]),
        None => (bytes, &[]),
    }
}

// The numbers before and after the first blank.
fn two_numbers(bytes: &[u8]) -> Option<(u32, u32)>
    ensures { result ≡ two bytes.now }
{
    let (first, second) = split_at_first(bytes, b' ');
    Some((parse_number(first)?, parse_number(second)?))
}

// The binding of the number before the first blank and the two after it.
fn parse_binding(bytes: &[u8]) -> Option<Binding>
    ensures { result ≡ binding_of bytes.now }
{
    let (port, ends) = split_at_first(bytes, b' ');
    let port = parse_number(port)?;
    let (provider, requirer) = two_numbers(ends)?;
    Some(Binding {
        port,
        provider,
        requirer,
    })
}

// The order that a line writes, or none where it writes no order. A line is bytes that need not be text, so this is no
// `FromStr`.
pub fn parse_order(line: &[u8]) -> Option<Order>
    ensures { result ≡ order_of line.now }
{
    let [letter, b' ', numbers @ ..] = line else {
        return None;
    };
    match letter {
        b'c' => {
            let (instance, kind) = two_numbers(numbers)?;
            Some(Order::Create { instance, kind })
        }
        b'b' => parse_binding(numbers).map(Order::Bind),
        b's' => {
            let (instance, state) = two_numbers(numbers)?;
            Some(Order::Change { instance, state })
        }
        b'u' => parse_binding(numbers).map(Order::Unbind),
        b'd' => {
            let instance = parse_number(numbers)?;
            Some(Order::Delete { instance })
        }
        _ => None,
    }
}

// The law of the written form holds: each order comes back from its text, and a text is read as an
// order exactly if it writes it.
pub fn law_holds()
    ensures law { WrittenLaw }
{}
