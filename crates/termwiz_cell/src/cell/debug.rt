//! How cells and attributes are printed for debugging.
use super::{Cell, CellAttributes};
use std::fmt;
use std::fmt::{Debug, DebugStruct};

/// The text, the width, and the attributes that aren't default.
impl Debug for Cell {
    fn fmt<W: fmt::Write>(&self, f: &mut fmt::Formatter<W>) -> fmt::Result {
        f.debug_struct("Cell")
            .field("text", &self.str())
            .field("width", &self.width())
            .field("attrs", self.attrs())
            .finish()
    }
}

/// The attributes that aren't default, by their names.
impl Debug for CellAttributes {
    fn fmt<W: fmt::Write>(&self, f: &mut fmt::Formatter<W>) -> fmt::Result {
        let mut out = f.debug_struct("CellAttributes");
        show_style(&mut out, self);
        show_colors(&mut out, self);
        if let Some(link) = self.hyperlink() {
            out.field("hyperlink", &**link);
        }
        out.finish()
    }
}

fn show_style<W: fmt::Write>(out: &mut DebugStruct<W>, attrs: &CellAttributes) {
    let usual = CellAttributes::blank();
    show(out, "intensity", attrs.intensity(), usual.intensity());
    show(out, "underline", attrs.underline(), usual.underline());
    show(out, "blink", attrs.blink(), usual.blink());
    show(out, "italic", attrs.italic(), usual.italic());
    show(out, "reverse", attrs.reverse(), usual.reverse());
    show(
        out,
        "strikethrough",
        attrs.strikethrough(),
        usual.strikethrough(),
    );
    show(out, "invisible", attrs.invisible(), usual.invisible());
    show(out, "wrapped", attrs.wrapped(), usual.wrapped());
    show(out, "overline", attrs.overline(), usual.overline());
    show(
        out,
        "semantic_type",
        attrs.semantic_type(),
        usual.semantic_type(),
    );
    show(
        out,
        "vertical_align",
        attrs.vertical_align(),
        usual.vertical_align(),
    );
}

fn show_colors<W: fmt::Write>(out: &mut DebugStruct<W>, attrs: &CellAttributes) {
    let usual = CellAttributes::blank();
    show(out, "foreground", attrs.foreground(), usual.foreground());
    show(out, "background", attrs.background(), usual.background());
    show(
        out,
        "underline_color",
        attrs.underline_color(),
        usual.underline_color(),
    );
}

fn show<W: fmt::Write, T: Debug + PartialEq + Copy>(
    out: &mut DebugStruct<W>,
    name: &str,
    value: T,
    usual: T,
) {
    if value != usual {
        out.field(name, &value);
    }
}
