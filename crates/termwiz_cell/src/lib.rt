//! Cells of a screen: their texts, widths, colours, attributes and links, and changes.
//!
//! - **A cell** is a text, whether it takes two columns, and attributes (`specs/CellValue.antt`). A
//!   text of at most seven bytes is stored in its cell, a longer one on the heap (`cell/text.rt`,
//!   `specs/CellLayout.antt`).
//! - **Attributes** are a record of fifteen fields (`specs/Attributes.antt`). Most are packed in
//!   one word, true colours too (`cell/style_word.rt`, `specs/StyleWord.antt`). While an underline
//!   colour, a link, or a true colour with a palette's fallback is set, the word and these are in a
//!   box (`cell/form.rt`, `specs/AttributesLayout.antt`). Contracts outside these files only say
//!   whether attributes need a box.
//! - **Colours and links** are printed and parsed by grammars, stated as relations between texts
//!   and values (`specs/ColorText.antt`, `specs/LinkText.antt`).
//! - **A width value** keeps the law of `Widths`: a width is at most 2, a space has 1, and each
//!   result depends on the value and the arguments alone (`emoji.rt`). Surfaces and lines give it
//!   no version (`specs/Measure.antt`). A width value may state that printable ASCII, or letters,
//!   have their usual widths (`specs/UsualWidths.antt`): runs of these are then not measured.
//! - **A change** is a `ChangeValue` in contracts, its texts as bytes (`specs/ChangeValue.antt`),
//!   and `specs/Sequence.antt` defines where each change moves the cursor of a sequence.
#![tactic(auto)]

pub mod cell;
pub mod change;
pub mod color;
pub mod emoji;
pub mod hyperlink;
