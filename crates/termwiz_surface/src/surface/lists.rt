//! Lists of changes that are added to a surface.
ghost use Rattle.std.specs.Prelude.{◌≡◌, ◌<◌, ◌+◌, ◌^◌, IsOk, OnErr, OnOk, length, slice_index_or};
ghost use Rattle.termwiz_surface.specs.{change_list, change_value, lent_value, listed_value};
ghost use Rattle.termwiz_surface.specs.{log_after, map, next_number, region_fits, regions_fit};

use std::alloc::AllocError;
use termwiz_cell::change::Change;
use termwiz_screen::log::Log;
use termwiz_screen::scroll_region::{region_fits, regions_fit};

/// A change whose text may be borrowed.
#[derive(Drop, Debug)]
pub enum LentChange<'a> {
    /// Prints a text, as `Change::Text` does.
    Text(&'a str),
    /// Sets the title, as `Change::Title` does.
    Title(&'a str),
    /// Any change, with a text of its own.
    Owned(Change),
}

/// Borrowed changes, whose texts may be borrowed too.
#[derive(Drop, Debug)]
pub struct LentChanges<'a>(pub &'a [LentChange<'a>]);

/// A list of changes, and what a surface logs of it.
#[derive(Drop, Debug)]
pub enum ChangeList<'a> {
    /// One change, which is logged.
    One(Change),
    /// Changes that are logged.
    Owned(Vec<Change>),
    /// Borrowed changes, of which clones are logged.
    Lent(&'a [Change]),
    /// Changes that aren't logged: no text is copied, and no memory is taken for the log.
    Unlogged(LentChanges<'a>),
}

// A change of a list, as it stands there.
#[derive(Clone, Copy)]
pub(super) enum ListedChange<'a> {
    // Prints a text.
    Text(&'a str),
    // Sets the title.
    Title(&'a str),
    // A change that has a text of its own, if any.
    Whole(&'a Change),
}

#[inline(always)]
fn whole_at(changes: &[Change], index: usize) -> ListedChange<'_>
    requires { index < length changes.now }
    ensures { listed_value result
        ≡ slice_index_or (map change_value changes.now) index (listed_value result) }
{
    ListedChange::Whole(&changes[index])
}

#[inline(always)]
fn lent_at<'a>(changes: &'a [LentChange<'a>], index: usize) -> ListedChange<'a>
    requires { index < length changes.now }
    ensures { listed_value result
        ≡ slice_index_or (map lent_value changes.now) index (listed_value result) }
{
    match &changes[index] {
        LentChange::Text(text) => ListedChange::Text(text),
        LentChange::Title(title) => ListedChange::Title(title),
        LentChange::Owned(change) => ListedChange::Whole(change),
    }
}

// Whether the change is no scroll whose region goes past the last row.
fn lent_region_fits(change: &LentChange<'_>, height: usize) -> bool
    ensures { result ≡ region_fits height (lent_value change.now) }
{
    match change {
        LentChange::Text(_) | LentChange::Title(_) => true,
        LentChange::Owned(change) => region_fits(change, height),
    }
}

// Whether no scroll's region goes past the last row.
fn lent_regions_fit(changes: &[LentChange<'_>], height: usize) -> bool
    ensures { result ≡ regions_fit height (map lent_value changes.now) }
{
    for change in changes {
        if !lent_region_fits(change, height) {
            return false;
        }
    }
    true
}

impl ChangeList<'_> {
    /// How many changes there are.
    #[inline(always)]
    pub fn len(&self) -> usize
        ensures { result ≡ length (change_list self.now) }
    {
        match self {
            ChangeList::One(_) => 1,
            ChangeList::Owned(changes) => changes.len(),
            ChangeList::Lent(changes) => changes.len(),
            ChangeList::Unlogged(changes) => changes.0.len(),
        }
    }

    // Whether no scroll's region goes past the last row.
    #[inline(always)]
    pub(super) fn regions_fit(&self, height: usize) -> bool
        ensures { result ≡ regions_fit height (change_list self.now) }
    {
        match self {
            ChangeList::One(change) => region_fits(change, height),
            ChangeList::Owned(changes) => regions_fit(changes.as_slice(), height),
            ChangeList::Lent(changes) => regions_fit(changes, height),
            ChangeList::Unlogged(changes) => lent_regions_fit(changes.0, height),
        }
    }

    // The change at an index.
    #[inline(always)]
    pub(super) fn at(&self, index: usize) -> ListedChange<'_>
        requires { index < length (change_list self.now) }
        ensures { listed_value result
            ≡ slice_index_or (change_list self.now) index (listed_value result) }
    {
        match self {
            ChangeList::One(change) => ListedChange::Whole(change),
            ChangeList::Owned(changes) => whole_at(changes.as_slice(), index),
            ChangeList::Lent(changes) => whole_at(changes, index),
            ChangeList::Unlogged(changes) => lent_at(changes.0, index),
        }
    }

    // Logs the changes, or counts them. An empty list never fails.
    #[inline(always)]
    pub(super) fn log_in(self, log: &mut Log) -> Result<(), AllocError>
        requires { next_number log.old + length (change_list self) < 2 ^ 64 }
        ensures ok { OnOk result (log.new ≡ log_after log.old self.entry) }
        ensures err { OnErr result (log.new ≡ log.old) }
        ensures succeeds { length (change_list self.entry) ≡ 0 → IsOk result }
    {
        match self {
            ChangeList::One(change) => log.push(change),
            ChangeList::Owned(changes) => log.append(changes),
            ChangeList::Lent(changes) => log.append_clones(changes),
            ChangeList::Unlogged(changes) => {
                log.pass(changes.0.len());
                Ok(())
            }
        }
    }
}
