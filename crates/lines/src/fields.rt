// The fields of a line, between the number and the order.
ghost use Rattle.std.specs.Prelude.{◌≡◌, ◌<◌};
ghost use Rattle.lines.specs.Line.{binding_of_fields, bits, fields, fits, fields_of_line, fields_of_order, order_of_fields, packed_fields, unused};

use crate::refusal::LineRefusal;
use model::binding::Binding;
use model::order::Order;

// The operation numbers. They stay numbers: a rule of the project has the decoder match them, with guards on what must
// be zero.
const CREATE: u32 = 1;

const BIND: u32 = 2;

const CHANGE: u32 = 3;

const UNBIND: u32 = 4;

const DELETE: u32 = 5;

// Each field in a number of its own, which may be too large for its bits.
#[derive(Clone, Copy, Default)]
pub struct Fields {
    pub operation: u32,
    pub first: u32,
    pub second: u32,
    pub port: u32,
    pub kind: u32,
    pub state: u32,
    pub spare: u32,
}

// The bits of a line from `place` on, as many as `width` says: by shift and mask.
fn bits(line: u32, place: u32, width: u32) -> u32
    requires { (place < 32) × (width < 32) }
    ensures { result ≡ bits line place width }
{
    (line >> place) & ((1 << width) - 1)
}

// All of the values are zero.
fn unused(values: &[u32]) -> bool
    ensures { result ≡ unused values.now }
{
    values.iter().all(|value| *value == 0)
}

// The fields that tell an order, which may be too large for a line.
impl From<Order> for Fields {
    ghost from_gives = { λ order fields. fields ≡ fields_of_order order };

    fn from(order: Order) -> Fields {
        match order {
            Order::Create { instance, kind } => Fields {
                operation: CREATE,
                first: instance,
                kind,
                ..Fields::default()
            },
            Order::Bind(binding) => Fields::of_binding(BIND, binding),
            Order::Change { instance, state } => Fields {
                operation: CHANGE,
                first: instance,
                state,
                ..Fields::default()
            },
            Order::Unbind(binding) => Fields::of_binding(UNBIND, binding),
            Order::Delete { instance } => Fields {
                operation: DELETE,
                first: instance,
                ..Fields::default()
            },
        }
    }
}

// The fields of any number.
impl From<u32> for Fields {
    ghost from_gives = { λ line fields. fields ≡ fields_of_line line };

    fn from(line: u32) -> Fields {
        Fields {
            operation: line >> 29,
            first: bits(line, 21, 8),
            second: bits(line, 13, 8),
            port: bits(line, 8, 5),
            kind: bits(line, 4, 4),
            state: bits(line, 1, 3),
            spare: bits(line, 0, 1),
        }
    }
}

// The order that the fields tell; refused where the operation is none, or where a field
// that the order has no use for, or the spare bit, is not zero.
impl TryFrom<Fields> for Order {
    type Error = LineRefusal;

    ghost try_from_gives = { λ fields order. order ≡ order_of_fields fields };

    fn try_from(fields: Fields) -> Result<Order, LineRefusal> {
        let Fields {
            operation,
            first,
            second,
            port,
            kind,
            state,
            spare,
        } = fields;
        match operation {
            CREATE if unused(&[second, port, state, spare]) => Ok(Order::Create {
                instance: first,
                kind,
            }),
            BIND if unused(&[kind, state, spare]) => Ok(Order::Bind(fields.binding())),
            CHANGE if unused(&[second, port, kind, spare]) => Ok(Order::Change {
                instance: first,
                state,
            }),
            UNBIND if unused(&[kind, state, spare]) => Ok(Order::Unbind(fields.binding())),
            DELETE if unused(&[second, port, kind, state, spare]) => Ok(Order::Delete {
                instance: first,
            }),
            _ => Err(LineRefusal::NotALine),
        }
    }
}

// The number that has the fields; refused where one is too large for its bits.
impl TryFrom<Fields> for u32 {
    type Error = LineRefusal;

    ghost try_from_gives = { λ fields line. line ≡ packed_fields fields };

    #[tactic(auto, using(crate::proofs::Packing::joined, crate::proofs::Packing::small))]
    fn try_from(fields: Fields) -> Result<u32, LineRefusal> {
        if !fields.fits() {
            return Err(LineRefusal::NotALine);
        }
        Ok(
            (fields.operation << 29)
                | (fields.first << 21)
                | (fields.second << 13)
                | (fields.port << 8)
                | (fields.kind << 4)
                | (fields.state << 1)
                | fields.spare,
        )
    }
}

impl Fields {
    // The fields of a bind or an unbind: the first instance is the provider and the second the requirer.
    fn of_binding(operation: u32, binding: Binding) -> Fields
        ensures { result ≡ fields operation binding.provider binding.requirer binding.port 0 0 }
    {
        Fields {
            operation,
            first: binding.provider,
            second: binding.requirer,
            port: binding.port,
            ..Fields::default()
        }
    }

    // The binding that the fields of a bind or an unbind tell.
    fn binding(self) -> Binding
        ensures { result ≡ binding_of_fields self }
    {
        Binding {
            port: self.port,
            provider: self.first,
            requirer: self.second,
        }
    }

    // Each field fits its bits.
    fn fits(self) -> bool
        ensures { result ≡ fits self }
    {
        self.operation < 8
            && self.first < 256
            && self.second < 256
            && self.port < 32
            && self.kind < 16
            && self.state < 8
            && self.spare < 2
    }
}
