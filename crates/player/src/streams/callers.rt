//! Callers of crates/uses: each makes the surfaces and viewers that it is about. Where a call
//! requires what another one ensures, its result is matched here, and not passed to the turn.
use crate::streams::given::{Shown, changes_of, note_change, paint, painted, push_rows, size_of};
use playing::error::PlayError;
use playing::turn::Turn;
use termwiz_cell::change::{Change, ChangeSequence};
use termwiz_cell::emoji::UnicodeWidths;
use termwiz_share::{ClientError, Source};
use termwiz_surface::surface::{Surface, SurfaceError};
use termwiz_surface::view::Viewer;
use uses::damage::{damage_between, show_the_same};
use uses::follower::{Follower, make_and_show};
use uses::lines::{heading, set_first_letters, word_at};
use uses::mirror::Mirror;
use uses::own_widths::surface_with_wide_ellipses;
use uses::patch::{apply_patch, is_sent, patch_to};
use uses::prompt::show_prompt;
use uses::relay::{relay, relay_twice};
use uses::remote::show_heading;
use uses::renderer::{refresh, refresh_all, take_frame};
use uses::row_copies::{copy_rows, show};
use uses::scrollback::rewrapped;
use uses::serving::{Room, ShareError};
use uses::shaper::shaped_text;
use uses::sharing::{join, reconnect, reconnect_fully};
use uses::two_sources::show_both;
use uses::window::show_widget;

/// What the caller answers that the first word names.
pub fn called(turn: &mut Turn<'_>) -> Option<()> {
    let (name, word) = (turn.word(), turn.word());
    match name {
        "heading" => headed(turn, word),
        "letters" => letters(turn, word),
        "prompt" => prompt(turn, word),
        "reconnect" => reconnected(turn, word, false),
        "reconnect-full" => reconnected(turn, word, true),
        "ellipses" => ellipses(turn, word),
        "room" => shared(turn, word),
        "both" => both(turn, word),
        _ => painted_call(turn, name, word),
    }
}

// What a caller answers that is given a surface of this size after some changes.
fn painted_call(turn: &mut Turn<'_>, name: &str, size: &str) -> Option<()> {
    let before = match name {
        "follower" | "frames" | "remote" => "",
        "copies" | "patch" | "widget" => turn.word(),
        _ => turn.rest(),
    };
    let mut surface = painted(turn, size, name == "remote", before)?;
    match name {
        "mirror" => mirrored(turn, &surface),
        "follower" => followed(turn, &mut surface),
        "refresh-all" => all_refreshed(turn, &mut surface),
        "refresh" | "widget" | "remote" => viewed(turn, name, &mut surface),
        "copies" => copies(turn, &mut surface),
        "patch" => patched(turn, size, &mut surface),
        "frames" => frames(turn, &mut surface),
        _ => turn.found(None),
    }
}

// The rows and the cursor where an ellipsis has two columns.
fn ellipses(turn: &mut Turn<'_>, size: &str) -> Option<()> {
    let (width, height) = size_of(turn, size);
    let words = turn.rest();
    let mut surface = turn.kept(surface_with_wide_ellipses(turn.alloc, width, height))?;
    paint(turn, &mut surface, words);
    let shown = turn.kept(surface.screen_chars_to_string())?;
    let (x, y) = surface.cursor_position();
    write!(turn, "{shown:?}, cursor {x} {y}");
    Some(())
}

// Whether frames are the last ones again: at first, after some changes, and again.
fn frames(turn: &mut Turn<'_>, surface: &mut Shown) -> Option<()> {
    let words = turn.rest();
    let mut frame = turn.kept(surface.full_screen())?;
    let first = turn.kept(take_frame(surface, &mut frame)).unwrap_or(false);
    paint(turn, surface, words);
    let changed = turn.kept(take_frame(surface, &mut frame)).unwrap_or(false);
    let again = turn.kept(take_frame(surface, &mut frame)).unwrap_or(false);
    write!(turn, "the last one again: {first}, {changed}, {again}");
    Some(())
}

// Whether a mirror shows what the surface shows, before and after it caught up.
fn mirrored(turn: &mut Turn<'_>, surface: &Shown) -> Option<()> {
    let Ok(mut mirror) = Mirror::new(turn.alloc, surface, surface.widths()) else {
        return turn.refused();
    };
    let before = turn.kept(show_the_same(mirror.shown(), surface)) == Some(true);
    note_change(turn, mirror.catch_up(surface));
    let after = turn.kept(show_the_same(mirror.shown(), surface)) == Some(true);
    write!(turn, "shows the same: {before}, then {after}");
    Some(())
}

// What a follower shows after two changes, and how many changes it was given of the second one.
fn followed(turn: &mut Turn<'_>, surface: &mut Shown) -> Option<()> {
    let words = turn.rest();
    let mut changes = changes_of(turn, words);
    let second = turn.found(changes.pop())?;
    let first = turn.found(changes.pop())?;
    let Ok(mut follower) = Follower::new(turn.alloc, surface, surface.widths()) else {
        return turn.refused();
    };
    note_change(turn, make_and_show(surface, &mut follower, first));
    let before = follower.shown().current_seqno();
    note_change(turn, make_and_show(surface, &mut follower, second));
    let given = follower.shown().current_seqno().wrapping_sub(before);
    push_rows(turn, follower.shown());
    writeln!(turn, "changes of the second: {given}");
    Some(())
}

// Where a prompt leaves the cursor, and how many rows lie between its first row and its last.
fn prompt(turn: &mut Turn<'_>, size: &str) -> Option<()> {
    let (width, height) = size_of(turn, size);
    let (line, hint) = (turn.word(), turn.word());
    let line = turn.unescaped(line, ' ');
    let hint = turn.unescaped(hint, ' ');
    let column = turn.number();
    let mut sequence = ChangeSequence::new(turn.alloc, height, width, UnicodeWidths);
    if column >= width {
        return turn.found(None);
    }
    let (line, hint) = (line.as_str(), hint.as_str());
    if show_prompt(turn.alloc, &mut sequence, line, hint, column).is_err() {
        turn.fail(PlayError::Memory);
    }
    let (x, y) = sequence.current_cursor_position();
    let height = sequence.render_height();
    write!(turn, "cursor {x} {y}, height {height}");
    Some(())
}

// A heading, the word at one of its columns, and what a shaper is given of it.
fn headed(turn: &mut Turn<'_>, text: &str) -> Option<()> {
    let column = turn.number();
    let text = turn.unescaped(text, ' ');
    let line = turn.kept(heading(turn.alloc, text.as_str(), 1, &UnicodeWidths))?;
    if column >= line.len() {
        return turn.found(None);
    }
    let word = word_at(&line, column);
    let shaped = turn.kept(shaped_text(turn.alloc, &line, &UnicodeWidths))?;
    let (columns, is_wide) = (line.len(), line.is_double_width());
    write!(turn, "{shaped:?}, {columns} columns, ");
    let (start, end) = (word.start, word.end);
    write!(turn, "double wide: {is_wide}, word {start}..{end}");
    Some(())
}

// The rows of this width of a line once the letters that a run begins with were set on it, as many
// as fit in a number of columns, and what follows them.
fn letters(turn: &mut Turn<'_>, text: &str) -> Option<()> {
    let (column, columns) = turn.pair();
    let (run, width) = (turn.word(), turn.number());
    let mut line = turn.kept(heading(turn.alloc, text, 1, &UnicodeWidths))?;
    let rest = turn.kept(set_first_letters(&mut line, column, columns, run, 2))?;
    let rows = turn.kept(rewrapped(&line, width, 2))?;
    for row in &rows {
        if let Some(shaped) = turn.kept(shaped_text(turn.alloc, row, &UnicodeWidths)) {
            writeln!(turn, "|{shaped}|");
        }
    }
    writeln!(turn, "then {rest:?}");
    Some(())
}

// What a viewer shows after a turn, and whether there are changes for it, and for a new one; or of
// a window, once a widget is drawn into it at a place; or of a session with a heading, with what is
// beside the screen.
fn viewed(turn: &mut Turn<'_>, name: &str, surface: &mut Shown) -> Option<()> {
    let Ok(mut viewer) = Viewer::new(turn.alloc, surface) else {
        return turn.refused();
    };
    match name {
        "widget" => {
            let (size, change) = (turn.word(), turn.word());
            let (x, y) = turn.pair();
            let widget = painted(turn, size, false, change)?;
            note_change(turn, show_widget(surface, &widget, x, y, &mut viewer));
        }
        "remote" if surface.is_full() => {
            let heading = turn.word();
            let shown = show_heading(turn.alloc, surface, heading, &mut viewer);
            note_change(turn, shown);
        }
        _ => note_change(turn, refresh(surface, &mut viewer)),
    }
    push_rows(turn, viewer.surface());
    if name == "refresh" {
        let (has, has_first) = (surface.has_changes(viewer.last()), surface.has_changes(0));
        writeln!(turn, "has changes: {has}, from the first on: {has_first}");
    } else if name == "remote" {
        let full = turn.kept(viewer.surface().full_screen())?;
        writeln!(turn, "title {}", full.title);
        for line in &full.lines {
            writeln!(turn, "{line:?}");
        }
    }
    Some(())
}

// What two viewers show after a turn, and their numbers.
fn all_refreshed(turn: &mut Turn<'_>, surface: &mut Shown) -> Option<()> {
    let Ok(one) = Viewer::new(turn.alloc, surface) else {
        return turn.refused();
    };
    let Ok(other) = Viewer::new(turn.alloc, surface) else {
        return turn.refused();
    };
    let Ok(mut viewers) = vec![in turn.alloc; one, other] else {
        return turn.refused();
    };
    note_change(turn, refresh_all(surface, viewers.as_mut_slice()));
    for viewer in &viewers {
        writeln!(turn, "number {}", viewer.last());
        push_rows(turn, viewer.surface());
    }
    Some(())
}

// What a far viewer shows by way of a near one, which reconnected, or what a viewer of a full
// surface shows that did.
fn reconnected(turn: &mut Turn<'_>, size: &str, is_full: bool) -> Option<()> {
    let (width, height) = size_of(turn, size);
    if is_full {
        let Ok(surface) = Surface::new_full(turn.alloc, width, height, UnicodeWidths) else {
            return turn.refused();
        };
        let Ok(mut viewer) = join(turn.alloc, &surface) else {
            return turn.refused();
        };
        note_change(turn, reconnect_fully(&surface, &mut viewer));
        push_rows(turn, viewer.surface());
        return Some(());
    }
    let Ok(surface) = Surface::new(turn.alloc, width, height, UnicodeWidths) else {
        return turn.refused();
    };
    let Ok(mut viewer) = join(turn.alloc, &surface) else {
        return turn.refused();
    };
    note_change(turn, reconnect(&surface, &mut viewer));
    let Ok(mut far) = Viewer::new(turn.alloc, viewer.surface()) else {
        return turn.refused();
    };
    note_change(turn, relay(&surface, &mut viewer, &mut far));
    note_change(turn, relay_twice(&surface, &mut viewer, &mut far));
    push_rows(turn, far.surface());
    Some(())
}

// Whether copies of a surface's rows are its rows after some changes.
fn copies(turn: &mut Turn<'_>, surface: &mut Shown) -> Option<()> {
    let words = turn.rest();
    let changes = changes_of(turn, words);
    let Ok(mut copies) = copy_rows(turn.alloc, surface) else {
        return turn.refused();
    };
    note_change(turn, show(surface, changes, copies.as_mut_slice()));
    push_rows(turn, surface);
    for (row, copy) in copies.iter().enumerate() {
        if let Some(line) = turn.found(surface.screen_line(row)) {
            writeln!(turn, "row {row} is copied: {}", copy.has_same_cells(line));
        }
    }
    Some(())
}

// The damage between two surfaces of one size, and the first one after the patch to the other one,
// which other changes make.
fn patched(turn: &mut Turn<'_>, size: &str, surface: &mut Shown) -> Option<()> {
    let words = turn.rest();
    let target = painted(turn, size, false, words)?;
    let (width, height) = surface.dimensions();
    let (other_width, other_height) = target.dimensions();
    if width != other_width || height != other_height {
        return turn.found(None);
    }
    let damage = turn.kept(damage_between(surface, &target))?;
    let patch = turn.kept(patch_to(surface, &target))?;
    let is_damage = is_sent(damage.as_slice(), patch.as_slice());
    let is_none = is_sent(damage.as_slice(), &[]);
    note_change(turn, apply_patch(surface, patch));
    push_rows(turn, surface);
    write!(turn, "damage {damage:?}, ");
    writeln!(turn, "which is the patch: {is_damage}, and none: {is_none}");
    Some(())
}

// What three clients show of a screen once changes are shared with them.
fn shared(turn: &mut Turn<'_>, size: &str) -> Option<()> {
    let size = size_of(turn, size);
    let words = turn.rest();
    let changes = changes_of(turn, words);
    let mut room = turn.kept(Room::new(turn.alloc, 7, size, UnicodeWidths))?;
    let shared = room.share(changes);
    writeln!(turn, "{shared:?}");
    for client in [room.first(), room.second(), room.third()] {
        writeln!(turn, "number {}", client.number());
        push_rows(turn, client.surface());
    }
    Some(())
}

// What a client shows of two sources, by a stream that is cut after a number of bytes.
fn both(turn: &mut Turn<'_>, size: &str) -> Option<()> {
    let (width, height) = size_of(turn, size);
    let cut = turn.number();
    let words = turn.rest();
    let changes = changes_of(turn, words);
    let change = turn.kept(Change::text_from(turn.alloc, "first"))?;
    let Ok(mut first) = Source::new(turn.alloc, 1, width, height, UnicodeWidths) else {
        return turn.refused();
    };
    let Ok(mut second) = Source::new(turn.alloc, 2, width, height, UnicodeWidths) else {
        return turn.refused();
    };
    note_change(turn, second.add_changes(changes));
    match show_both(turn.alloc, &mut first, &mut second, change, cut) {
        Ok(client) => push_rows(turn, client.surface()),
        Err(ShareError::Unserved(ClientError::Memory)) => turn.fail(PlayError::Memory),
        Err(ShareError::Refused(SurfaceError::Memory)) => turn.fail(PlayError::Memory),
        Err(_) => turn.fail(PlayError::Bad),
    }
    Some(())
}
