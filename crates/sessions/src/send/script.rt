//! Scripts of what is sent: one command a line, each of which is an event or an ask.
ghost use Rattle.std.specs.Prelude.{IfOk, IfSome};
ghost use Rattle.std.specs.List.{All};
ghost use Rattle.sessions.specs.Requests.{AreAskWords, IsRequestInRange, SaysRequest};
ghost use Rattle.sessions.specs.Saying.{SaysSend};
ghost use Rattle.sessions.specs.Sending.{IsSendInRange};
ghost use Rattle.sessions.specs.Lines.{Say};

use crate::script::{Command, LineError, ScriptError, commands, event};
use crate::send::runs::{Request, SendEvent};
use crate::words::whole;
use std::alloc::Global;
use termwiz_surface::Event;
use termwiz_wire::Ask;

impl Command for SendEvent {
    ghost is_in_range = { IsSendInRange };

    ghost says = { SaysSend };

    fn of_line(alloc: Global, line: &str) -> Result<SendEvent, LineError> {
        if line == "send" {
            return Ok(SendEvent::Send);
        }
        match event(alloc, line)? {
            Event::Changes(changes) => Ok(SendEvent::Changes(changes)),
            Event::Flush(seq) => Ok(SendEvent::Flush(seq)),
            Event::Resize(width, height) => Ok(SendEvent::Resize(width, height)),
            _ => Err(LineError::BadCommand),
        }
    }
}

impl Command for Request {
    ghost is_in_range = { IsRequestInRange };

    ghost says = { SaysRequest };

    fn of_line(alloc: Global, line: &str) -> Result<Request, LineError> {
        if let Some(words) = line.strip_prefix("ask ") {
            let ask = ask(words).ok_or(LineError::BadCommand)?;
            return Ok(Request::Ask(ask));
        }
        let event = SendEvent::of_line(alloc, line)?;
        Ok(Request::Event(event))
    }
}

// The ask of two words: a source, and the number that is shown of it.
fn ask(words: &str) -> Option<Ask>
    ensures { IfSome result (λ ask. AreAskWords words.now ask) }
{
    let (first, second) = words.split_once(' ')?;
    let source = whole(first)?;
    let number = whole(second)?;
    Some(Ask { source, number })
}

/// Reads the events of a script: `send`, and the commands of `surfview` that change the surface.
pub fn read(alloc: Global, script: &str) -> Result<Vec<SendEvent>, ScriptError>
    ensures sizes { IfOk result (λ events. All IsSendInRange events.items) }
    ensures said { IfOk result (λ events. Say SaysSend script.now events.items) }
{
    commands(alloc, script)
}
