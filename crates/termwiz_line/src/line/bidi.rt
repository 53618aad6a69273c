//! The directions of a line's text.
ghost use Rattle.std.specs.Prelude.{◌≡◌};
ghost use Rattle.termwiz_line.specs.{is_auto, is_right_to_left};

/// The direction in which a text is laid out.
#[derive(Debug, Clone, Copy, PartialEq, Eq)]
pub enum Direction {
    LeftToRight,
    RightToLeft,
}

/// What determines the direction of a line: the direction that is named, or, by the `Auto` hints,
/// the line's text, with the named direction for a text that has none.
#[derive(Debug, Clone, Copy, PartialEq, Eq)]
pub enum ParagraphDirectionHint {
    /// Left to right, whatever the text.
    LeftToRight,
    /// Right to left, whatever the text.
    RightToLeft,
    /// The direction of the line's text, or left to right where it has none.
    AutoLeftToRight,
    /// The direction of the line's text, or right to left where it has none.
    AutoRightToLeft,
}

impl ParagraphDirectionHint {
    /// The hint of this direction, with or without precedence of the text's own.
    pub(super) fn new(right_to_left: bool, auto: bool) -> ParagraphDirectionHint
        ensures direction { is_right_to_left result ≡ right_to_left }
        ensures auto { is_auto result ≡ auto }
    {
        match (auto, right_to_left) {
            (true, true) => ParagraphDirectionHint::AutoRightToLeft,
            (true, false) => ParagraphDirectionHint::AutoLeftToRight,
            (false, true) => ParagraphDirectionHint::RightToLeft,
            (false, false) => ParagraphDirectionHint::LeftToRight,
        }
    }

    /// Whether the direction that it names is right to left.
    pub(super) fn is_right_to_left(self) -> bool
        ensures { result ≡ is_right_to_left self }
    {
        matches!(
            self,
            ParagraphDirectionHint::RightToLeft | ParagraphDirectionHint::AutoRightToLeft
        )
    }

    /// Whether the text's own direction takes precedence.
    pub(super) fn is_auto(self) -> bool
        ensures { result ≡ is_auto self }
    {
        matches!(
            self,
            ParagraphDirectionHint::AutoLeftToRight | ParagraphDirectionHint::AutoRightToLeft
        )
    }
}
