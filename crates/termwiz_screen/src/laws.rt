//! Laws of the definitions that contracts cite. Each is stated on a function that does nothing.
ghost use Rattle.std.specs.Bool.{Decides};
ghost use Rattle.std.specs.Prelude.{◌≡◌};
ghost use Rattle.termwiz_screen.specs.{ChangesMakeFullScreens, CutIsInside, FullRepaintGivesScreen};
ghost use Rattle.termwiz_screen.specs.{FewestNarrowPrints, FullRepaintIsShort, LineEntriesGiveRow};
ghost use Rattle.termwiz_screen.specs.{LinesArePrintable, RepaintGivesScreen, ResizedKeepsLines};
ghost use Rattle.termwiz_screen.specs.{DiffGivesRegion, DrawingRestores, NeedGivesRegion, NeedIs};
ghost use Rattle.termwiz_screen.specs.{FullStepsAreSo, MovesLeadThere, TextsScrollRows};
ghost use Rattle.termwiz_screen.specs.{DiffGivesBand, FewestPrints, RepaintIsShort, TextsMoveAlike};
ghost use Rattle.termwiz_screen.specs.{DiffGivesRows, NeedGivesRows, PrintsAreDiff, RegionIsDiff};
ghost use Rattle.termwiz_screen.specs.{full_value};

use crate::full::FullScreen;

/// What a repaint and the entries of a line do when they are replayed.
pub fn repaint_laws()
    ensures gives { RepaintGivesScreen }
    ensures short { RepaintIsShort }
    ensures line { LineEntriesGiveRow }
{}

/// Which full screens changes lead to, and what a full repaint does when it is replayed.
pub fn full_repaint_laws()
    ensures step { FullStepsAreSo }
    ensures scrolled { TextsScrollRows }
    ensures changes { ChangesMakeFullScreens }
    ensures resized { ResizedKeepsLines }
    ensures gives { FullRepaintGivesScreen }
    ensures short { FullRepaintIsShort }
{}

/// What a diff has to print: which cells these are, and what painting them gives.
pub fn need_laws()
    ensures worded { NeedIs }
    ensures inside { CutIsInside }
    ensures region { NeedGivesRegion }
    ensures rows { NeedGivesRows }
{}

/// What the changes of a diff do when they are replayed, however they were made.
pub fn diff_laws()
    ensures prints { PrintsAreDiff }
    ensures region_is { RegionIsDiff }
    ensures rows { DiffGivesRows }
    ensures region { DiffGivesRegion }
    ensures band { DiffGivesBand }
    ensures lines { LinesArePrintable }
    ensures restores { DrawingRestores }
{}

/// The fewest paints that lead from one screen to another of its size: at least a third as many as
/// a diff prints, and at least as many where no cell is wide.
pub fn fewest_prints()
    ensures thirds { FewestPrints }
    ensures narrow { FewestNarrowPrints }
{}

/// Where a text and a move leave the cursor of a sequence: a text in the same column as on a
/// surface, and a move by distances at the requested place, where its column is on the screen and
/// the absolute value of its row less than the number of rows.
pub fn sequence_laws()
    ensures texts { TextsMoveAlike }
    ensures moves { MovesLeadThere }
{}

/// Full screens are equal exactly where their values are.
pub fn full_equality_laws()
    ensures { (a b : FullScreen) → Decides
        (⟦<FullScreen as PartialEq>⟧.eq a b) (full_value a ≡ full_value b) }
{}
