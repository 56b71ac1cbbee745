// Sets of numbers packed in a field: number 0 is the field's highest bit.
ghost use Rattle.std.specs.Prelude.{◌≡◌, ℕ, ◌≤◌};
ghost use Rattle.std.proofs.Common.{lit≤};
ghost use Rattle.universe.specs.Sets.{has, has_from};

// A field of up to 32 bits that packs a set.
pub trait Field: Copy {
    ghost WIDTH: { ℕ };

    ghost bits: { Self → ℕ };

    const WIDTH: u32;

    // The field as a number.
    fn bits(self) -> u32
        ensures { result ≡ bits self };

    ghost narrow: { WIDTH ≤ 32 };

    // Whether the number is in the set.
    #[tactic(auto, using(crate::proofs::PackedSets::has_shift, crate::proofs::PackedSets::ltb_past))]
    final fn has(self, number: u32) -> bool
        ensures { result ≡ has WIDTH (bits self) number }
    {
        number < Self::WIDTH && (self.bits() >> (Self::WIDTH - 1 - number)) & 1 == 1
    }

    // Whether some number from `first` on is in the set.
    final fn has_from(self, first: u32) -> bool
        ensures { result ≡ has_from WIDTH (bits self) first }
    {
        (first..Self::WIDTH).any(|number| self.has(number))
    }
}

impl Field for u32 {
    ghost WIDTH = { 32 };

    ghost bits = { λ set. set };

    const WIDTH: u32 = u32::BITS;

    ghost narrow = { lit≤ tt };

    fn bits(self) -> u32 {
        self
    }
}

impl Field for u8 {
    ghost WIDTH = { 8 };

    ghost bits = { λ set. set };

    const WIDTH: u32 = u8::BITS;

    ghost narrow = { lit≤ tt };

    fn bits(self) -> u32 {
        u32::from(self)
    }
}
