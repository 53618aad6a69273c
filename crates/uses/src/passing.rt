//! A server between a source and its clients, which passes on what another client was answered.
ghost use Rattle.std.specs.Prelude.{◌≡◌, ◌↔◌, ◌⊎◌, IsTrue, Ok, false, true};
ghost use Rattle.termwiz_share.specs.{ShowsSource, SourceValue};
ghost use Rattle.uses.specs.{IsReady, IsResponse, PassesOn, Serves, ask_of, measure};
ghost use Rattle.termwiz_wire.specs.declared.sent.Ask.{Ask};

use termwiz_share::{Client, ClientError};
use termwiz_surface::Widths;
use termwiz_wire::{Ask, Head, Limits, decode_head};

/// Feeds a client the response to another one's ask, if it answers what this client asks too, and
/// returns whether it does: the client shows what the source shows then.
///
/// The server decodes nothing of the response but its head. It fails only as `Client::feed` does on
/// this response, and what each error leaves is said there.
pub fn pass_on<W: Widths>(client: &mut Client<W>, response: &[u8]) -> Result<bool, ClientError>
    // Whatever the bytes are.
    ensures fed { PassesOn (measure W.width_of) client.old response.now result client.new }
    // Whichever client's ask the source has answered.
    ensures shows { (source : SourceValue W) (ask : Ask) →
        Serves (measure W.width_of) source client.old → IsReady client.old →
        IsResponse (measure W.width_of) source ask response.now → result ≡ Ok true →
        ShowsSource source client.new × IsReady client.new }
    // It can be served as before, after an error too.
    ensures serves { (source : SourceValue W) (ask : Ask) →
        Serves (measure W.width_of) source client.old → IsReady client.old →
        IsResponse (measure W.width_of) source ask response.now →
        Serves (measure W.width_of) source client.new }
    ensures unchanged { result ≡ Ok false → client.new ≡ client.old }
    // What was to answer this client is never kept from it.
    ensures kept { (source : SourceValue W) →
        IsResponse (measure W.width_of) source (ask_of client.old) response.now →
        result ≡ Ok false → ⊥ }
{
    if !answers_client(client, response) {
        return Ok(false);
    }
    client.feed(response)?;
    Ok(true)
}

/// Whether the response to another client's ask answers this client too.
pub fn answers_client<W: Widths>(client: &Client<W>, response: &[u8]) -> bool
    ensures answers { (source : SourceValue W) (ask : Ask) →
        IsResponse (measure W.width_of) source ask response.now → IsTrue result →
        IsResponse (measure W.width_of) source (ask_of client.now) response.now }
    // What was given to this client does.
    ensures own { (source : SourceValue W) →
        IsResponse (measure W.width_of) source (ask_of client.now) response.now → IsTrue result }
{
    let limits = Limits {
        cells: usize::MAX,
        rows: usize::MAX,
        bytes: usize::MAX,
    };
    match decode_head(limits, response) {
        Ok(head) => leads_on(head, client.ask()),
        Err(_) => false,
    }
}

// Whether an answer with this head leads on from what the ask names, or from nothing.
fn leads_on(head: Head, ask: Ask) -> bool
    ensures { IsTrue result ↔
        ((head.base ≡ 0) ⊎ ((ask.source ≡ head.source) × (head.base ≡ ask.number))) }
{
    head.base == 0 || (ask.source == head.source && head.base == ask.number)
}
