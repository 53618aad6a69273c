//! The flags of a line, as bits of a number.
ghost use Rattle.std.specs.Prelude.{◌≡◌, ◌∷◌, [], codes, ⊤};
ghost use Rattle.termwiz_line.specs.{flag_bits, flags_of, with_direction, with_sizes};

use bitflags::{Flag, Flags, bitflag_items};

/// A set of flags.
#[derive(Clone, Copy, PartialEq, Eq, Debug)]
pub(super) struct LineBits(u16);

bitflag_items! {
    impl LineBits: u16 {
        const NONE = 0;
        const BIDI_ENABLED = 1;
        const DOUBLE_WIDTH = 16;
        const DOUBLE_HEIGHT_TOP = 32;
        const DOUBLE_HEIGHT_BOTTOM = 64;
        const RTL = 128;
        const AUTO_DETECT_DIRECTION = 256;
    }
}

impl Flags for LineBits {
    type Bits = u16;

    ghost exact = { ⊤ };

    ghost table = { (codes "NONE", 0) ∷ (codes "BIDI_ENABLED", 1) ∷ (codes "DOUBLE_WIDTH", 16)
        ∷ (codes "DOUBLE_HEIGHT_TOP", 32) ∷ (codes "DOUBLE_HEIGHT_BOTTOM", 64) ∷ (codes "RTL", 128)
        ∷ (codes "AUTO_DETECT_DIRECTION", 256) ∷ [] };

    ghost set_of = { λ p. p.0 };

    fn flags<'a>() -> &'a [Flag<LineBits>] {
        LineBits::FLAGS
    }

    fn bits(&self) -> u16 {
        self.0
    }

    fn from_bits_retain(bits: u16) -> LineBits {
        LineBits(bits)
    }
}

impl LineBits {
    /// Sets how large the cells are shown.
    pub(super) fn set_sizes(&mut self, double_width: bool, top: bool, bottom: bool)
        requires { flag_bits (flags_of self.old.0) ≡ self.old.0 }
        ensures sizes { flags_of self.new.0
            ≡ with_sizes double_width top bottom (flags_of self.old.0) }
        ensures no_others { flag_bits (flags_of self.new.0) ≡ self.new.0 }
    {
        self.set(LineBits::DOUBLE_WIDTH, double_width);
        self.set(LineBits::DOUBLE_HEIGHT_TOP, top);
        self.set(LineBits::DOUBLE_HEIGHT_BOTTOM, bottom);
    }

    /// Sets whether the text may be laid out by the bidirectional algorithm.
    pub(super) fn set_bidi_enabled(&mut self, enabled: bool)
        requires { flag_bits (flags_of self.old.0) ≡ self.old.0 }
        ensures enabled { flags_of self.new.0
            ≡ record (flags_of self.old.0) { bidi_enabled = enabled } }
        ensures no_others { flag_bits (flags_of self.new.0) ≡ self.new.0 }
    {
        self.set(LineBits::BIDI_ENABLED, enabled);
    }

    /// Sets what determines the direction of the text.
    pub(super) fn set_direction(&mut self, right_to_left: bool, auto: bool)
        requires { flag_bits (flags_of self.old.0) ≡ self.old.0 }
        ensures direction { flags_of self.new.0
            ≡ with_direction right_to_left auto (flags_of self.old.0) }
        ensures no_others { flag_bits (flags_of self.new.0) ≡ self.new.0 }
    {
        self.set(LineBits::RTL, right_to_left);
        self.set(LineBits::AUTO_DETECT_DIRECTION, auto);
    }
}
