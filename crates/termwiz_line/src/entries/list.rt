//! A list of entries whose last text can still grow.
ghost use Rattle.std.specs.Prelude.{◌≡◌, ◌++◌, ◌∷◌, ◌&&◌, if◌then◌else◌, [], IfOk, OnErr, false};
ghost use Rattle.termwiz_line.specs.{IsLastOf, OnOk, add_text, change_value, ends_printable, joins};
ghost use Rattle.termwiz_line.specs.{is_plain, is_text, last_is, map, option_copied, pen_entry};
ghost use Rattle.termwiz_line.specs.{true, with_text};
ghost use Rattle.termwiz_cell.specs.ChangeValue as change;

use std::alloc::{AllocError, Global};
use std::marker::Model;
use termwiz_cell::cell::CellAttributes;
use termwiz_cell::change::Change;
use termwiz_text::JoinedText;

/// A list of entries, which are changes. A text at its end grows by each text that joins it. After
/// an error of a method the list may have any entries.
#[derive(Drop)]
pub struct EntryList {
    alloc: Global,
    // All entries but the growing text.
    pushed: Vec<Change>,
    // The growing text, while there is one. The next one reuses its memory.
    text: JoinedText,
    grows: bool,
}

impl Model for EntryList {
    ghost use Rattle.std.specs.Prelude.{◌≡◌, List, false, map};
    ghost use Rattle.termwiz_cell.specs.ChangeValue.{ChangeValue, change_value, is_text};
    ghost use Rattle.termwiz_line.specs.LastChange.{last_is};
    ghost use Rattle.termwiz_line.specs.GrowingText.{with_text};

    ghost Value = { List ChangeValue };

    ghost view = { λ e. with_text (map change_value e.pushed.items) e.grows e.text };

    ghost invariant = { λ e. e.grows ≡ false →
        last_is is_text (map change_value e.pushed.items) ≡ false };
}

impl EntryList {
    /// No entries.
    pub fn new(alloc: Global) -> EntryList
        ensures { result ≡ [] }
    {
        EntryList {
            alloc,
            pushed: Vec::new(alloc),
            text: JoinedText::empty(alloc),
            grows: false,
        }
    }

    /// Appends an entry that isn't a text.
    #[inline(always)]
    pub fn push(&mut self, entry: Change) -> Result<(), AllocError>
        requires { is_text (change_value entry) ≡ false }
        ensures { OnOk result (self.new ≡ self.old ++ change_value entry ∷ []) }
    {
        push_behind(self.alloc, &mut self.pushed, &self.text, self.grows, entry)?;
        self.grows = false;
        Ok(())
    }

    /// Appends a text. It joins a text at the end where the graphemes of both together are those of
    /// that text and then the new text as one grapheme. Otherwise it becomes a new entry.
    #[inline(always)]
    pub fn push_text(&mut self, more: &str) -> Result<(), AllocError>
        ensures { OnOk result (self.new ≡ add_text self.old more.now) }
    {
        if join_text(&mut self.text, self.grows, more)? {
            return Ok(());
        }
        self.start_text(more)
    }

    // Appends a text as a new entry. It is kept out of line, so that the path of a text that joins
    // is short.
    #[inline(never)]
    fn start_text(&mut self, first: &str) -> Result<(), AllocError>
        ensures { OnOk result (self.new ≡ self.old ++ change.Text first.now ∷ []) }
    {
        push_grown(self.alloc, &mut self.pushed, &self.text, self.grows)?;
        self.grows = true;
        self.text.restart(first)?;
        Ok(())
    }

    /// Appends a character of printable ASCII to a text that ends in one, which it always joins.
    #[inline(always)]
    pub fn push_plain(&mut self, byte: u8) -> Result<(), AllocError>
        requires plain { is_plain byte ≡ true }
        requires behind { last_is ends_printable self.old ≡ true }
        ensures { OnOk result (self.new ≡ add_text self.old (byte ∷ [])) }
    {
        self.text.push_plain(byte)?;
        Ok(())
    }

    /// Appends a pen, unless it equals the old one.
    #[inline(always)]
    pub fn push_pen(&mut self, old: &CellAttributes, new: &CellAttributes) -> Result<(), AllocError>
        ensures { OnOk result (self.new ≡ self.old ++ pen_entry old.now new.now) }
    {
        if *old == *new {
            return Ok(());
        }
        self.change_pen(new)
    }

    #[inline(never)]
    fn change_pen(&mut self, new: &CellAttributes) -> Result<(), AllocError>
        ensures { OnOk result (self.new ≡ self.old ++ change.AllAttributes new.now ∷ []) }
    {
        self.push(Change::AllAttributes(new.clone()?))?;
        Ok(())
    }

    /// Reserves room for `times` times as many entries as there are, if memory allows.
    pub fn reserve_times(&mut self, times: usize)
        ensures { self.new ≡ self.old }
    {
        let more = self.pushed.len().saturating_mul(times);
        let _ = self.pushed.reserve(more);
    }

    /// Whether the last entry is a text.
    pub fn ends_with_text(&self) -> bool
        ensures { result ≡ last_is is_text self.now }
    {
        self.grows
    }

    /// Whether the last entry is a text that ends in printable ASCII.
    pub fn ends_printable(&self) -> bool
        ensures { result ≡ last_is ends_printable self.now }
    {
        self.grows && self.text.ends_plain()
    }

    /// The last entry, if it isn't a text.
    pub fn last(&self) -> Option<&Change>
        ensures { IsLastOf self.now (option_copied result) }
    {
        if self.grows {
            return None;
        }
        self.pushed.last()
    }

    /// The entries, in order.
    pub fn into_vec(self) -> Result<Vec<Change>, AllocError>
        ensures { IfOk result (λ entries. map change_value entries.items ≡ self) }
    {
        let EntryList {
            alloc,
            mut pushed,
            text,
            grows,
        } = self;
        push_grown(alloc, &mut pushed, &text, grows)?;
        Ok(pushed)
    }
}

// Pushes the growing text, if there is one.
#[inline(always)]
fn push_grown(
    alloc: Global,
    pushed: &mut Vec<Change>,
    text: &JoinedText,
    grows: bool,
) -> Result<(), AllocError>
    ensures ok { OnOk result (
        map change_value pushed.new.items
        ≡ with_text (map change_value pushed.old.items) grows text.now) }
    ensures nothing { grows ≡ false → pushed.new.items ≡ pushed.old.items }
{
    if grows {
        let text = String::from_str(alloc, text.as_str())?;
        pushed.push(Change::Text(text))?;
    }
    Ok(())
}

// Pushes the growing text, if there is one, and then the entry.
#[inline(always)]
fn push_behind(
    alloc: Global,
    pushed: &mut Vec<Change>,
    text: &JoinedText,
    grows: bool,
    entry: Change,
) -> Result<(), AllocError>
    ensures ok { OnOk result (
        map change_value pushed.new.items
        ≡ with_text (map change_value pushed.old.items) grows text.now ++ change_value entry ∷ []) }
    ensures err { OnErr result (grows ≡ false → pushed.new.items ≡ pushed.old.items) }
{
    push_grown(alloc, pushed, text, grows)?;
    pushed.push(entry)?;
    Ok(())
}

// Joins a text to the growing one, if there is one and it joins, and returns whether it did.
#[inline(always)]
fn join_text(text: &mut JoinedText, grows: bool, more: &str) -> Result<bool, AllocError>
    ensures joins { IfOk result (λ joined. joined ≡ (grows && joins text.old more.now)) }
    ensures grown { IfOk result (λ joined.
        text.new ≡ (if joined then text.old ++ more.now else text.old)) }
{
    if !grows {
        return Ok(false);
    }
    text.join(more)
}
