// The stages of a script: a draft that nobody has checked, and a plan that passed the check.
ghost use Rattle.std.specs.Prelude.{◌≡◌};

// A script that nobody has checked. Its lines are lent, so they stay as they are.
#[derive(Clone, Copy)]
pub struct Draft<'a> {
    pub lines: &'a [u32],
}

// A script that passed the check, which alone makes one.
#[derive(Clone, Copy)]
pub struct CheckedPlan<'a> {
    pub(crate) lines: &'a [u32],
}

impl<'a> CheckedPlan<'a> {
    // Its lines.
    pub fn lines(self) -> &'a [u32]
        ensures { result ≡ self.entry.lines }
    {
        self.lines
    }
}
