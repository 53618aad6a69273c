//! Laws of the definitions that contracts cite. Each is stated on a function that does nothing.
ghost use Rattle.std.specs.Bool.{Decides};
ghost use Rattle.std.specs.Prelude.{◌≡◌, ◌<◌, List, if◌then◌else◌, max};
ghost use Rattle.termwiz_surface.specs.{AnswersStay, BrokenListsLeaveForm, CarriedLead, GivenCarry};
ghost use Rattle.termwiz_surface.specs.{ChangesGoOn, ChangesLeadOn, FlushesKeepLeading, LackMemory};
ghost use Rattle.termwiz_surface.specs.{FlushesKeepPast, FollowedFullLeadOn, FollowedLeadOn};
ghost use Rattle.termwiz_surface.specs.{LackNumbers, LeadsWhereItIs, NamedAreLed, NamesStay};
ghost use Rattle.termwiz_surface.specs.{NothingIsNamedAtFirst, NumberNamesPicture, RestartsGoOn};
ghost use Rattle.termwiz_surface.specs.{RestartsKeepLeading, StreamsLeadOn, full_screens, measure};
ghost use Rattle.termwiz_surface.specs.{FullScreen, Screen, attribute_change_value, change_value};
ghost use Rattle.termwiz_surface.specs.{ChangeValue, HasResized, Makes, MakesUnlogged, screens};
ghost use Rattle.termwiz_surface.specs.{NumbersRows, NumbersTouched, SurfaceValue, next_number};
ghost use Rattle.termwiz_surface.specs.{number_at, resize_touches, ℕ};

use termwiz_cell::cell::AttributeChange;
use termwiz_cell::change::Change;
use termwiz_cell::emoji::Widths;
pub use termwiz_line::laws::{
    click_laws, cluster_laws, cut_laws, edit_laws, row_laws, storage_laws, stored_row_laws,
};
pub use termwiz_screen::laws::{
    diff_laws, fewest_prints, full_equality_laws, full_repaint_laws, need_laws, repaint_laws,
    sequence_laws,
};

/// A viewer that follows a surface still follows it whatever happens to the surface: changes,
/// flushes, refused memory and resizes; and its answers lead it to the surface's screen. `Follows`
/// is built from the definitions in these laws.
pub fn following_laws()
    ensures same { LeadsWhereItIs screens }
    ensures changes { ChangesLeadOn screens }
    ensures streams { StreamsLeadOn screens }
    ensures flushes { FlushesKeepLeading screens }
    ensures restarts { RestartsKeepLeading screens }
{}

/// A viewer that follows a full surface still follows it whatever happens to the surface, and its
/// answers lead it to the surface's full screen.
pub fn full_following_laws()
    ensures same { LeadsWhereItIs full_screens }
    ensures changes { ChangesLeadOn full_screens }
    ensures streams { StreamsLeadOn full_screens }
    ensures flushes { FlushesKeepLeading full_screens }
    ensures restarts { RestartsKeepLeading full_screens }
{}

/// Above 0 each number that a surface had names one screen, whatever happens to the surface; and an
/// answer leads to the screen that its number names, whenever it is accepted.
pub fn history_laws()
    ensures first { NothingIsNamedAtFirst screens }
    ensures number { NumberNamesPicture screens }
    ensures led { NamedAreLed screens }
    ensures changes { ChangesGoOn screens }
    ensures flushes { FlushesKeepPast screens }
    ensures restarts { RestartsGoOn screens }
    ensures names { NamesStay Screen }
    ensures answers { AnswersStay screens }
    ensures given { GivenCarry screens }
    ensures carried { CarriedLead screens }
{}

/// Above 0 each number that a surface had names one full screen, whatever happens to the surface;
/// and an answer of a full surface leads to the full screen that its number names.
pub fn full_history_laws()
    ensures first { NothingIsNamedAtFirst full_screens }
    ensures number { NumberNamesPicture full_screens }
    ensures led { NamedAreLed full_screens }
    ensures changes { ChangesGoOn full_screens }
    ensures flushes { FlushesKeepPast full_screens }
    ensures restarts { RestartsGoOn full_screens }
    ensures names { NamesStay FullScreen }
    ensures answers { AnswersStay full_screens }
    ensures given { GivenCarry full_screens }
    ensures carried { CarriedLead full_screens }
{}

/// The meaning of the steps of a schedule: the changes of an outcome lead from what the viewer
/// showed to the screen of the outcome; by how much the viewer's own number grows; when numbers are
/// used up, or memory is refused; and that after a list that ran out of memory the surface is valid
/// and has its old size.
pub fn schedule_laws<W: Widths>()
    ensures followed { FollowedLeadOn (measure W.width_of) }
    ensures followed_fully { FollowedFullLeadOn (measure W.width_of) }
    ensures numbers { LackNumbers (measure W.width_of) }
    ensures memory { LackMemory (measure W.width_of) }
    ensures broken { BrokenListsLeaveForm W }
{}

/// What the numbers of rows say after each call they say after several calls. A list of changes
/// gives its number to the rows that it touches, and to no others; a resize to another width gives
/// its number to all, and one of the height alone to the rows that it adds.
pub fn row_number_laws<W: Widths>()
    ensures same { (s : SurfaceValue W) → NumbersRows s s }
    ensures then { (r s t : SurfaceValue W) →
        NumbersRows r s → NumbersRows s t → NumbersRows r t }
    ensures made { (f : List ℕ → ℕ) (s t : SurfaceValue W) (changes : List ChangeValue) →
        Makes f s changes t → NumbersTouched f s changes t }
    ensures unlogged { (f : List ℕ → ℕ) (s t : SurfaceValue W) (changes : List ChangeValue) →
        MakesUnlogged f s changes t → NumbersTouched f s changes t }
    ensures resized { (s t : SurfaceValue W) (w h j : ℕ) → HasResized s w h t → j < h →
        number_at t j ≡ (if resize_touches s w j
        then max (next_number t.log) (number_at s j) else number_at s j) }
{}

/// Changes, and changes of one attribute, are equal exactly where their values are.
pub fn equality_laws()
    ensures attributes { (a b : AttributeChange) → Decides
        (⟦<AttributeChange as PartialEq>⟧.eq a b)
        (attribute_change_value a ≡ attribute_change_value b) }
    ensures changes { (a b : Change) → Decides
        (⟦<Change as PartialEq>⟧.eq a b) (change_value a ≡ change_value b) }
{}
