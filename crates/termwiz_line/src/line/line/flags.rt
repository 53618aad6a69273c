//! The number of a line, and its flags: how large its cells are shown, and the direction of its
//! text.
ghost use Rattle.std.specs.Prelude.{◌≡◌, ◌<◌, ◌↔◌, ◌&&◌, ◌||◌, ◌⊎◌, IsTrue, false, max, not, true};
ghost use Rattle.termwiz_line.specs.{goes_left, is_auto, is_right_to_left, with_direction};
ghost use Rattle.termwiz_line.specs.{with_sizes};

use crate::line::bidi::{Direction, ParagraphDirectionHint};
use crate::line::line::Line;
use crate::line::linebits::LineBits;
use bitflags::Flags;
use termwiz_cell::change::{SEQ_ZERO, SequenceNo};

impl Line {
    /// The line's number, which edits raise.
    pub fn current_seqno(&self) -> SequenceNo
        ensures { result ≡ self.now.seqno }
    {
        self.seqno
    }

    /// Whether the line has changed since this number: whether its own is greater. A line with the
    /// number 0 always counts as changed.
    pub fn changed_since(&self, seqno: SequenceNo) -> bool
        ensures { IsTrue result ↔ ((self.now.seqno ≡ 0) ⊎ (seqno < self.now.seqno)) }
    {
        self.seqno == SEQ_ZERO || self.seqno > seqno
    }

    /// Raises the line's number to `seqno`, unless it is greater.
    pub fn update_last_change_seqno(&mut self, seqno: SequenceNo)
        ensures { self.new ≡ record self.old { seqno = max self.old.seqno seqno } }
    {
        self.seqno = self.seqno.max(seqno);
    }

    /// Whether cells are shown in single width and single height.
    pub fn is_single_width(&self) -> bool
        ensures { result
            ≡ not (self.now.flags.double_width || self.now.flags.double_height_top ||
            self.now.flags.double_height_bottom) }
    {
        !(self.bits.contains(LineBits::DOUBLE_WIDTH)
            || self.bits.contains(LineBits::DOUBLE_HEIGHT_TOP)
            || self.bits.contains(LineBits::DOUBLE_HEIGHT_BOTTOM))
    }

    /// Shows cells in single width and single height. Raises the line's number to `seqno`.
    pub fn set_single_width(&mut self, seqno: SequenceNo)
        ensures { self.new
            ≡ record self.old {
              flags = with_sizes false false false self.old.flags;
              seqno = max self.old.seqno seqno;
            } }
    {
        self.bits.set_sizes(false, false, false);
        self.seqno = self.seqno.max(seqno);
    }

    /// Whether cells are shown in double width and single height.
    pub fn is_double_width(&self) -> bool
        ensures { result
            ≡ (self.now.flags.double_width && not self.now.flags.double_height_top
            && not self.now.flags.double_height_bottom) }
    {
        self.bits.contains(LineBits::DOUBLE_WIDTH)
            && !self.bits.contains(LineBits::DOUBLE_HEIGHT_TOP)
            && !self.bits.contains(LineBits::DOUBLE_HEIGHT_BOTTOM)
    }

    /// Shows cells in double width and single height. Raises the line's number to `seqno`.
    pub fn set_double_width(&mut self, seqno: SequenceNo)
        ensures { self.new
            ≡ record self.old {
              flags = with_sizes true false false self.old.flags;
              seqno = max self.old.seqno seqno;
            } }
    {
        self.bits.set_sizes(true, false, false);
        self.seqno = self.seqno.max(seqno);
    }

    /// Whether the line shows the upper half of cells of double width and double height.
    pub fn is_double_height_top(&self) -> bool
        ensures { result
            ≡ (self.now.flags.double_width && self.now.flags.double_height_top
            && not self.now.flags.double_height_bottom) }
    {
        self.bits.contains(LineBits::DOUBLE_WIDTH)
            && self.bits.contains(LineBits::DOUBLE_HEIGHT_TOP)
            && !self.bits.contains(LineBits::DOUBLE_HEIGHT_BOTTOM)
    }

    /// Shows the upper half of cells of double width and double height. Raises the line's number to
    /// `seqno`.
    pub fn set_double_height_top(&mut self, seqno: SequenceNo)
        ensures { self.new
            ≡ record self.old {
              flags = with_sizes true true false self.old.flags;
              seqno = max self.old.seqno seqno;
            } }
    {
        self.bits.set_sizes(true, true, false);
        self.seqno = self.seqno.max(seqno);
    }

    /// Whether the line shows the lower half of cells of double width and double height.
    pub fn is_double_height_bottom(&self) -> bool
        ensures { result
            ≡ (self.now.flags.double_width && not self.now.flags.double_height_top
            && self.now.flags.double_height_bottom) }
    {
        self.bits.contains(LineBits::DOUBLE_WIDTH)
            && !self.bits.contains(LineBits::DOUBLE_HEIGHT_TOP)
            && self.bits.contains(LineBits::DOUBLE_HEIGHT_BOTTOM)
    }

    /// Shows the lower half of cells of double width and double height. Raises the line's number to
    /// `seqno`.
    pub fn set_double_height_bottom(&mut self, seqno: SequenceNo)
        ensures { self.new
            ≡ record self.old {
              flags = with_sizes true false true self.old.flags;
              seqno = max self.old.seqno seqno;
            } }
    {
        self.bits.set_sizes(true, false, true);
        self.seqno = self.seqno.max(seqno);
    }

    /// Sets whether a viewer may lay out the text by the bidirectional algorithm. Raises the line's
    /// number to `seqno`.
    pub fn set_bidi_enabled(&mut self, enabled: bool, seqno: SequenceNo)
        ensures { self.new
            ≡ record self.old {
              flags = record self.old.flags { bidi_enabled = enabled };
              seqno = max self.old.seqno seqno;
            } }
    {
        self.bits.set_bidi_enabled(enabled);
        self.seqno = self.seqno.max(seqno);
    }

    /// Sets the direction of the text, and whether the text's own direction takes precedence.
    /// Raises the line's number to `seqno`.
    pub fn set_direction(&mut self, direction: Direction, auto_detect: bool, seqno: SequenceNo)
        ensures { self.new
            ≡ record self.old {
              flags = with_direction
                  (goes_left direction) auto_detect self.old.flags;
              seqno = max self.old.seqno seqno;
            } }
    {
        self.bits
            .set_direction(direction == Direction::RightToLeft, auto_detect);
        self.seqno = self.seqno.max(seqno);
    }

    /// Sets whether a viewer may lay out the text by the bidirectional algorithm, and what
    /// determines its direction. Raises the line's number to `seqno`.
    pub fn set_bidi_info(
        &mut self,
        enabled: bool,
        direction: ParagraphDirectionHint,
        seqno: SequenceNo,
    )
        ensures { self.new
            ≡ record self.old {
              flags = with_direction (is_right_to_left direction)
                  (is_auto direction) (record self.old.flags { bidi_enabled = enabled });
              seqno = max self.old.seqno seqno;
            } }
    {
        self.bits.set_bidi_enabled(enabled);
        self.bits
            .set_direction(direction.is_right_to_left(), direction.is_auto());
        self.seqno = self.seqno.max(seqno);
    }

    /// Whether a viewer may lay out the text by the bidirectional algorithm, and what determines
    /// its direction.
    pub fn bidi_info(&self) -> (bool, ParagraphDirectionHint)
        ensures enabled { result.0 ≡ self.now.flags.bidi_enabled }
        ensures direction { is_right_to_left result.1 ≡ self.now.flags.right_to_left }
        ensures auto { is_auto result.1 ≡ self.now.flags.auto_detect }
    {
        let hint = ParagraphDirectionHint::new(
            self.bits.contains(LineBits::RTL),
            self.bits.contains(LineBits::AUTO_DETECT_DIRECTION),
        );
        (self.bits.contains(LineBits::BIDI_ENABLED), hint)
    }
}
