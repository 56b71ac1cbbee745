// What the verifying layer holds.
ghost use Rattle.std.specs.Prelude.{◌≡◌, false, ◌&&◌};
ghost use Rattle.hosts.specs.Survey.{has_gap};

use hosts::host::Host;

// A host, and whether it is known that nothing has a gap in it. While it is, an order is tested only where it can open
// one.
#[derive(Drop)]
pub struct Verifying<B: Host> {
    pub(crate) below: B,
    pub(crate) is_gap_free: bool,
    ghost gap_free: { (is_gap_free && has_gap (B.Survey.situation below)) ≡ false },
}
