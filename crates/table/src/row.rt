// A row: what a provider gives a requirer, as the packed set of the ports on which they are bound. Definitions see plain
// numbers, so `in_range` also says what `u8` and `u32` do.
ghost use Rattle.std.specs.Prelude.{◌<◌, ◌^◌};

#[derive(Clone, Copy)]
pub struct Row {
    pub provider: u8,
    pub requirer: u8,
    pub ports: u32,
    ghost in_range: { (provider < 256) × (requirer < 256) × (ports < 2 ^ 32) },
}
