//! Lines of bytes, and of surfaces, sources and clients, and their answers.
use crate::streams::bytes::{Kind, Trial, decode};
use crate::streams::callers::called;
use crate::streams::carried::carried;
use crate::streams::followed::Followed;
use crate::streams::given::{changes_of, note_change, push_screen, size_of};
use crate::streams::scene::Scene;
use crate::streams::watcher::{Watcher, push_returned};
use playing::error::PlayError;
use playing::play::Play;
use playing::turn::Turn;
use playing::words::named;
use std::alloc::Global;
use termwiz_cell::emoji::UnicodeWidths;
use termwiz_share::Source;
use uses::passing::pass_on;

const KINDS: [(&str, Kind); 5] = [
    ("change", Kind::Change),
    ("narrow", Kind::Narrow),
    ("answer", Kind::Answer),
    ("head", Kind::Head),
    ("ask", Kind::Ask),
];

/// Answers the lines, and keeps what a case has.
#[derive(Drop)]
pub struct Stage {
    // How many inputs were made of the lines by damaging their bytes.
    damaged: usize,
    scenes: Vec<Scene>,
    sources: Vec<Source<UnicodeWidths>>,
    watchers: Vec<Watcher>,
}

impl Play for Stage {
    fn line(&mut self, turn: &mut Turn<'_>) {
        let what = turn.word();
        if let Some(kind) = named(&KINDS, what) {
            return self.value(turn, kind);
        }
        match what {
            "case" => {
                self.scenes = Vec::new(turn.alloc);
                self.sources = Vec::new(turn.alloc);
                self.watchers = Vec::new(turn.alloc);
            }
            // Each damaged input ended as it has to, or the play had ended.
            "damaged" => writeln!(turn, "{} inputs", self.damaged),
            "carried" => carried(turn),
            "call" => called(turn).unwrap_or(()),
            "surface" | "full" => {
                let scene = Scene::new(turn, what == "full");
                turn.keep(&mut self.scenes, scene);
            }
            "source" => {
                let source = source(turn);
                turn.keep(&mut self.sources, source);
            }
            "client" if turn.is_read() => {
                let watcher = Watcher::new(turn);
                turn.keep(&mut self.watchers, watcher);
            }
            "client" => fed(turn).unwrap_or(()),
            _ => self.play(turn, what),
        }
    }
}

impl Stage {
    /// Nothing is made yet, and no bytes are damaged.
    pub fn new(alloc: Global) -> Stage {
        Stage {
            damaged: 0,
            scenes: Vec::new(alloc),
            sources: Vec::new(alloc),
            watchers: Vec::new(alloc),
        }
    }

    // A line of a surface, a source or a client that the case has.
    fn play(&mut self, turn: &mut Turn<'_>, what: &str) {
        match what {
            "shown" | "put" | "due" | "deliver" | "send" | "on" => {
                if let Some(scene) = turn.numbered(&mut self.scenes) {
                    scene.play(turn, what);
                }
            }
            "source-shown" => {
                if let Some(source) = turn.numbered(&mut self.sources) {
                    push_screen(turn, source.surface());
                }
            }
            "add" => {
                let source = turn.numbered(&mut self.sources);
                let words = turn.rest();
                let changes = changes_of(turn, words);
                if let Some(source) = source
                    && !turn.has_failed()
                {
                    note_change(turn, source.add_changes(changes));
                }
            }
            "pass" => self.pass(turn).unwrap_or(()),
            "respond" | "follows" | "served" => self.serve(turn, what),
            _ => {
                if let Some(watcher) = turn.numbered(&mut self.watchers) {
                    watcher.play(turn, what);
                }
            }
        }
    }

    // The value that the bytes of a word encode.
    fn value(&mut self, turn: &mut Turn<'_>, kind: Kind) {
        let word = turn.word();
        let bytes = turn.bytes_of(word);
        if !decode(turn, kind, bytes.as_slice(), true) {
            turn.push_str("its encoding differs\n");
        }
        if kind != Kind::Narrow && kind != Kind::Head {
            let count = Trial::Decoded(kind).count(turn, bytes.as_slice());
            if !turn.has_failed() {
                self.damaged = self.damaged.wrapping_add(count);
            }
        }
    }

    // Passes on the response to a client to another one.
    fn pass(&mut self, turn: &mut Turn<'_>) -> Option<()> {
        let watcher = turn.numbered(&mut self.watchers)?;
        let response = turn.kept(watcher.response.clone())?;
        let watcher = turn.numbered(&mut self.watchers)?;
        push_returned(turn, pass_on(&mut watcher.client, response.as_slice()));
        Some(())
    }

    // What a source and a client do with each other.
    fn serve(&mut self, turn: &mut Turn<'_>, what: &str) {
        let (one, other) = turn.pair();
        let (source, watcher) = if what == "respond" {
            (one, other)
        } else {
            (other, one)
        };
        let Some(source) = turn.found(self.sources.get_mut(source)) else {
            return;
        };
        let Some(watcher) = turn.found(self.watchers.get_mut(watcher)) else {
            return;
        };
        match what {
            "respond" => watcher.receive(turn, source),
            _ => watcher.follow(turn, source, what == "served"),
        }
    }
}

// A source of the number and the size that the next words write.
fn source(turn: &mut Turn<'_>) -> Option<Source<UnicodeWidths>> {
    let (number, size) = (turn.number(), turn.word());
    let (width, height) = size_of(turn, size);
    if number == 0 {
        turn.fail(PlayError::Bad);
        return None;
    }
    turn.kept(Source::new(turn.alloc, number, width, height, UnicodeWidths))
}

// How many inputs there are of a repaint and of a delta. A client met each as it has to.
fn fed(turn: &mut Turn<'_>) -> Option<()> {
    let (repaint, delta) = (turn.word(), turn.word());
    let copy = turn.bytes_of(repaint);
    let repaint = turn.bytes_of(repaint);
    let delta = turn.bytes_of(delta);
    let mut trial = Trial::Fed(Followed::new(turn, copy, delta.as_slice())?);
    let repaints = trial.count(turn, repaint.as_slice());
    let deltas = trial.count(turn, delta.as_slice());
    writeln!(turn, "{} inputs", repaints.wrapping_add(deltas));
    Some(())
}
