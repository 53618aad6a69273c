//! What is measured, by its name.
use crate::asking::Make;
use crate::drawn::{Pens, SHORT, Start, Sum};
use crate::lines::LineWork;
use crate::printing::{Draw, KANA, PLAIN, Print};
use crate::shared::Feed;
use crate::viewers::View;
use crate::{asking, frames, lines, printing, shared, viewers};
use std::alloc::Global;

/// A workload: what it begins with, and what is done over and over.
#[derive(Clone, Copy)]
pub enum Work {
    Print(Start, Print),
    Draw(Start, Draw),
    /// This many of the last changes are asked for.
    Ask(Start, usize),
    Make(Make, Start),
    /// A diff from an 80x24 full of text.
    Diff(Pens, Start),
    Frame(Pens),
    View(Start, View),
    HundredViewers,
    Encode,
    Decode,
    Feed(Feed),
    Line(LineWork),
    Setter,
    Clone,
    Equality,
}

const ONE: Pens = Pens::One;

const TEN: Pens = Pens::Ten;

const TRUE: Pens = Pens::TenTrue;

const TEXT: Start = Start::Text(TEN);

// More changes than there are, so that a repaint is asked for.
const ALL: usize = usize::MAX;

static NAMES: [(&str, Work); 64] = [
    // A line of 80 characters on 80x24.
    ("plain", Work::Print(Start::Blank, Print::Line(PLAIN))),
    // The same with a colour for every 8 columns.
    ("colours", Work::Draw(Start::Blank, Draw::Colours(TEN))),
    ("true-line", Work::Draw(Start::Blank, Draw::Colours(TRUE))),
    // All rows of an 80x24, with a colour for every 8 columns, where the log is flushed each time.
    ("fill", Work::Draw(Start::Blank, Draw::Fill(TEN))),
    ("true-fill", Work::Draw(Start::Blank, Draw::Fill(TRUE))),
    // A line of 40 kana.
    ("kana", Work::Print(Start::Blank, Print::Line(KANA))),
    // A short line at the bottom row, of 24 or SIZE.
    ("scroll", Work::Print(Start::Rows, Print::Line(SHORT))),
    // The same, and a scroll of the first two rows.
    ("scroll-two", Work::Draw(Start::FilledRows, Draw::ScrollTwo)),
    // `scroll` on 80x24, where the log is flushed every 64 changes.
    ("log", Work::Print(Start::Blank, Print::Logged)),
    // The same, where the log is flushed each time, and 8,000 changes are kept, or SIZE.
    ("flush-behind", Work::Print(Start::Log(8000), Print::Behind)),
    // Lines of text on 200x50, in pieces of 4 KB, where the log is flushed each time.
    ("cat", Work::Print(Start::Page, Print::Piece)),
    // The same with a colour for every 8 columns.
    ("coloured-cat", Work::Draw(Start::Page, Draw::Pipe(TEN))),
    ("true-cat", Work::Draw(Start::Page, Draw::Pipe(TRUE))),
    // A clear of 80x24 to a true colour, where the log is flushed each time.
    ("clear-colour", Work::Draw(Start::Blank, Draw::Clear)),
    // A wide character at the end of a row of 80 columns, or SIZE: the last column is cleared, and
    // it is printed again.
    ("erase-wide", Work::Draw(Start::WideRow, Draw::EraseWide)),
    // Ten changes that are due on 80x24, of 11 in the log, or SIZE.
    ("delta", Work::Ask(Start::Log(11), 10)),
    // A repaint of a coloured 80x24.
    ("repaint", Work::Ask(TEXT, ALL)),
    ("true-repaint", Work::Ask(Start::Text(TRUE), ALL)),
    // A repaint of an 80x24 with a link for every 8 columns.
    ("linked-repaint", Work::Ask(Start::Links, ALL)),
    // A repaint of a coloured 200x60.
    ("large-repaint", Work::Ask(Start::LargeText(TEN), ALL)),
    // A repaint of a 200x60 full of text in one pen.
    ("one-pen", Work::Ask(Start::LargeText(ONE), ALL)),
    // A diff of two 80x24 full of text that show the same, or differ in each 20th cell, or in all.
    ("diff-0", Work::Diff(TEN, TEXT)),
    ("diff-5", Work::Diff(TEN, Start::Speckled(TEN))),
    ("diff-100", Work::Diff(TEN, Start::OtherText(TEN))),
    ("plain-diff-0", Work::Diff(ONE, Start::Text(ONE))),
    ("plain-diff-5", Work::Diff(ONE, Start::Speckled(ONE))),
    ("plain-diff-100", Work::Diff(ONE, Start::OtherText(ONE))),
    ("true-diff-0", Work::Diff(TRUE, Start::Text(TRUE))),
    ("true-diff-5", Work::Diff(TRUE, Start::Speckled(TRUE))),
    ("true-diff-100", Work::Diff(TRUE, Start::OtherText(TRUE))),
    // A frame of 80x24 that is drawn from parts, and a diff from the last one.
    ("frame", Work::Frame(TEN)),
    ("true-frame", Work::Frame(TRUE)),
    // A viewer of an 80x24 that follows by a delta of one line, whose printing counts too.
    ("follow-delta", Work::View(Start::Blank, View::Follow)),
    // The same, where both logs are flushed each time.
    ("viewer-memory", Work::View(Start::Blank, View::Refresh)),
    // A character on a coloured 80x24, which a viewer follows, and both logs are flushed.
    ("type-and-follow", Work::View(TEXT, View::Type)),
    // A viewer of a coloured 80x24 that follows by a repaint.
    ("follow-repaint", Work::View(TEXT, View::Repaint)),
    // A viewer of a full surface of the same that follows by a repaint.
    (
        "follow-full-repaint",
        Work::View(Start::FullText, View::Repaint),
    ),
    // An answer of ten changes that are due on 80x24, which are cloned.
    ("answer-delta", Work::Make(Make::Answer(1), Start::Log(11))),
    // An answer that is a repaint of a coloured 80x24.
    ("answer-repaint", Work::Make(Make::Answer(0), TEXT)),
    // A viewer of an 80x24 that accepts a delta of one line, whose printing and answer count too.
    ("accept-delta", Work::View(Start::Blank, View::Accept)),
    // A line on 80x24 that a hundred viewers accept, each of which is answered.
    ("hundred-viewers", Work::HundredViewers),
    // The encoding of an answer that is a repaint of a coloured 80x24, with room for it.
    ("encode-repaint", Work::Encode),
    // The decoding of such an answer.
    ("decode-repaint", Work::Decode),
    // `accept-delta`, where each answer is encoded and decoded on its way.
    ("deliver-delta", Work::View(Start::Blank, View::Deliver)),
    // A client that is fed the bytes of a repaint of a coloured 80x24, and shows it.
    ("feed-repaint", Work::Feed(Feed::Repaint)),
    // The same, byte by byte.
    ("feed-bytes", Work::Feed(Feed::Bytes)),
    // A character on a coloured 80x24 that is a source, which responds, and a client is fed that.
    ("type-and-feed", Work::Feed(Feed::Typed)),
    // A 200x60 that is made an 80x24 and a 200x60 again.
    ("resize", Work::Draw(Start::LargeText(TEN), Draw::Resize)),
    // A 200x60 that loses its last row and gets one again.
    (
        "resize-one-row",
        Work::Draw(Start::LargeText(TEN), Draw::ResizeOneRow),
    ),
    // A step of a storm of sizes of a coloured 80x24, each by a column, and some by a row.
    ("storm", Work::Draw(TEXT, Draw::Storm)),
    // A clone of a coloured 80x24.
    ("surface-clone", Work::Make(Make::Clone, TEXT)),
    ("true-clone", Work::Make(Make::Clone, Start::Text(TRUE))),
    // Making an 80x24.
    ("new", Work::Make(Make::New, Start::Blank)),
    // A clone of a line of 120 columns, or SIZE, with a colour for every 8, each cell by itself.
    ("line-clone", Work::Line(LineWork::Clone)),
    // The same, stored as one text then.
    ("compress", Work::Line(LineWork::Compress)),
    // A walk over such a line that is stored as one text.
    ("walk", Work::Line(LineWork::Walk)),
    // The last cell of such a line, which is asked for by its column.
    ("get-cell", Work::Line(LineWork::Get)),
    // The mark of such a line that goes on, which is set or taken away, and asked for.
    ("mark", Work::Line(LineWork::Mark)),
    // The trailing blanks of such a line are pruned, of which it has none.
    ("prune", Work::Line(LineWork::Prune)),
    // A blank that is inserted at the beginning of the line that was cloned, whose last cell goes.
    ("insert", Work::Line(LineWork::Insert)),
    // A character that is set at the end of a line of up to 120 columns, or SIZE, stored as text.
    ("append", Work::Line(LineWork::Append)),
    // A setter of an attribute, a clone of plain attributes, and a comparison of attributes.
    ("setter", Work::Setter),
    ("clone", Work::Clone),
    ("equality", Work::Equality),
];

impl Work {
    pub fn from_name(name: &str) -> Option<Work> {
        for (own, work) in &NAMES {
            if *own == name {
                return Some(*work);
            }
        }
        None
    }
}

/// Runs the workload `count` times, and returns a sum that depends on what was done. Where its
/// object can have another size, that may be given.
pub fn run(alloc: Global, work: Work, size: Option<u16>, count: u32) -> Sum {
    match work {
        Work::Print(start, print) => printing::printed(alloc, start, print, size, count),
        Work::Draw(start, draw) => printing::drawn(alloc, start, draw, size, count),
        Work::Ask(start, due) => asking::asked(alloc, start, due, size, count),
        Work::Make(make, start) => asking::made(alloc, make, start, Start::Blank, count),
        Work::Diff(pens, to) => asking::made(alloc, Make::Diff, Start::Text(pens), to, count),
        Work::Frame(pens) => frames::framed(alloc, pens, count),
        Work::View(start, view) => viewers::viewed(alloc, start, view, count),
        Work::HundredViewers => viewers::viewed_by_hundred(alloc, count),
        Work::Encode => asking::coded(alloc, false, count),
        Work::Decode => asking::coded(alloc, true, count),
        Work::Feed(feed) => shared::fed(alloc, feed, count),
        Work::Line(work) => lines::worked(alloc, work, size, count),
        Work::Setter => lines::attribute_set(count),
        Work::Clone => lines::attributes_cloned(count),
        Work::Equality => lines::attributes_compared(count),
    }
}
