// What orders move at a host.
ghost use Rattle.std.specs.Prelude.{Some};
ghost use Rattle.hosts.specs.Loads.{load_text};

use std::fmt;

// How many of the coming orders are put off, and how many creations and bindings are allowed.
#[derive(Clone, Copy, PartialEq, Eq, Debug)]
pub struct Load {
    pub waits: u32,
    pub creations: u32,
    pub bindings: u32,
}

impl fmt::Display for Load {
    ghost output = { λ load. Some (load_text load) };

    fn fmt<W: fmt::Write>(&self, f: &mut fmt::Formatter<W>) -> fmt::Result {
        let Load {
            waits,
            creations,
            bindings,
        } = self;
        write!(
            f,
            "(waits {waits}, creations {creations}, bindings {bindings})"
        )
    }
}
