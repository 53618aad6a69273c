//! What the changes of an answer cost its screen, beside what their own bytes stand for.
ghost use Rattle.std.specs.Prelude.{◌≡◌, ◌+◌, ◌*◌, ◌<◌, ◌≤◌, ◌^◌, IfSome, None, false, map, nat_le};
ghost use Rattle.std.specs.Prelude.{string_bytes, true};
ghost use Rattle.termwiz_cell.specs.ChangeValue.{change_value};
ghost use Rattle.termwiz_surface.specs.Unlogged.{lent_value};
ghost use Rattle.termwiz_wire.specs.Work.{bears, cost, is_first, line_feeds, most_work};
ghost use Rattle.termwiz_wire.specs.Work.{scroll_work, work, work_of};

use crate::decode::Head;
use termwiz_cell::change::{Change, Position};
use termwiz_surface::{Answer, LentChange};
use termwiz_text::split_plain_run;

/// Whether a screen bears the work of an answer's changes: the cells that they may write and the
/// rows that they may move, beside what their own bytes stand for. The bound is four times the
/// screen's cells, plus 64. An answer of more isn't decoded.
pub fn is_borne(answer: &Answer<'_>) -> bool
    ensures { result ≡ nat_le (work_of answer.now.width answer.now.height answer.now.changes)
        (most_work answer.now.width answer.now.height) }
{
    let (width, height) = answer.size();
    let most = most_work(width, height);
    let mut spent = 0;
    for change in answer.changes() {
        spent += work(change, width, height);
        if spent > most {
            return false;
        }
    }
    true
}

/// The work of the changes before this one and of this one, unless the screen doesn't bear it. No
/// head bears all.
pub(crate) fn spent_with(head: Option<Head>, spent: u128, change: &LentChange<'_>) -> Option<u128>
    requires size { IfSome head (λ h. (h.width < 2 ^ 32) × (h.height < 2 ^ 32)) }
    requires few { IfSome head (λ h. spent ≤ most_work h.width h.height) }
    ensures some { IfSome result (λ all. (bears head spent (lent_value change.now) ≡ true)
        × (all ≡ spent + cost head (lent_value change.now))) }
    ensures none { result ≡ None → bears head spent (lent_value change.now) ≡ false }
{
    let Some(head) = head else {
        return Some(spent);
    };
    let all = spent + lent_work(change, head.width, head.height);
    if all <= most_work(head.width, head.height) {
        Some(all)
    } else {
        None
    }
}

// How much work a screen of this size bears.
fn most_work(width: usize, height: usize) -> u128
    requires width { width < 2 ^ 32 }
    requires height { height < 2 ^ 32 }
    ensures value { result ≡ most_work width height }
    ensures few { result < 2 ^ 70 }
{
    64 + 4 * (width * height) as u128
}

fn lent_work(change: &LentChange<'_>, width: usize, height: usize) -> u128
    requires width { width < 2 ^ 32 }
    requires height { height < 2 ^ 32 }
    ensures value { result ≡ work width height (lent_value change.now) }
    ensures few { result < 2 ^ 100 }
{
    match change {
        LentChange::Text(text) => text_work(text, width),
        LentChange::Title(_) => 0,
        LentChange::Owned(change) => work(change, width, height),
    }
}

fn work(change: &Change, width: usize, height: usize) -> u128
    requires width { width < 2 ^ 32 }
    requires height { height < 2 ^ 32 }
    ensures value { result ≡ work width height (change_value change.now) }
    ensures few { result < 2 ^ 100 }
{
    match change {
        Change::Text(text) => text_work(text.as_str(), width),
        Change::ClearScreen(_) | Change::ClearToEndOfScreen(_) => (width * height) as u128,
        Change::ClearToEndOfLine(_) => width as u128,
        Change::CursorPosition { x, .. } if !is_first(*x) => width as u128,
        Change::ScrollRegionUp {
            region_size,
            scroll_count,
            ..
        }
        | Change::ScrollRegionDown {
            region_size,
            scroll_count,
            ..
        } => scroll_work(width, *region_size, *scroll_count),
        _ => 0,
    }
}

// A row of blanks for each line feed.
fn text_work(text: &str, width: usize) -> u128
    requires { width < 2 ^ 32 }
    ensures value { result ≡ width * line_feeds text.now }
    ensures few { result < 2 ^ 100 }
{
    width as u128 * line_feeds(text) as u128
}

// The rows of the region, and a row of blanks for each that comes in.
fn scroll_work(width: usize, size: usize, count: usize) -> u128
    requires { width < 2 ^ 32 }
    ensures value { result ≡ scroll_work width size count }
    ensures few { result < 2 ^ 100 }
{
    size as u128 + width as u128 * count.min(size) as u128
}

// Whether a move leads to the first column.
fn is_first(x: Position) -> bool
    ensures { result ≡ is_first x }
{
    matches!(x, Position::Absolute(0))
}

// How many line feeds a text has. The printable ASCII that it begins with is passed over at once.
fn line_feeds(text: &str) -> usize
    ensures { result ≡ line_feeds text.now }
{
    let (_plain, rest) = split_plain_run(text, usize::MAX);
    count_line_feeds(rest.as_bytes())
}

fn count_line_feeds(bytes: &[u8]) -> usize
    ensures { result ≡ line_feeds bytes.now }
{
    let mut count = 0;
    for byte in bytes {
        if *byte == b'\n' {
            count += 1;
        }
    }
    count
}
