//! Links: a target, params, and the text that the escape sequence OSC 8 has for them.
mod copies;
mod params;

ghost use Rattle.std.specs.Prelude.{◌≡◌, ◌≢◌, ◌↔◌, ◌∷◌, [], IfSome, MatchResult, map, string_bytes};
ghost use Rattle.termwiz_cell.specs.{AreEmpty, AreInOrder, ArePrinted, AreTexts, HasPairs, IfOk};
ghost use Rattle.termwiz_cell.specs.{IsReadable, IsTrue, IsUtf8, None, ReadsLink, Some, SpellsOnly};
ghost use Rattle.termwiz_cell.specs.{codes, decided, false, length, link_eq, link_eq-Decides, part};
ghost use Rattle.termwiz_cell.specs.{link_text, param_bytes, partial_equiv_from_equiv, true};
ghost use Rattle.termwiz_cell.specs.Link.{Link};

pub use copies::LinkCopies;
use params::{clone_params, has_same_params, is_pairs, read_params, write_params};
use std::alloc::{AllocError, Global};
use std::collections::BTreeMap;
use std::fmt;
use std::marker::Model;
use thiserror::Error;

/// A link: its target, its params in the order of their keys, and whether a rule made it of the
/// text on a screen. Two links are equal where all three are.
#[derive(Drop, Debug)]
pub struct Hyperlink {
    params: BTreeMap<String, String>,
    uri: String,
    implicit: bool,
}

/// Why a text is not a link. The first error that applies, in this order, is returned.
#[derive(Debug, Clone, Copy, PartialEq, Eq, Error)]
pub enum LinkError {
    /// Error 1: there are not three parts.
    #[error("a link has three parts")]
    WrongParamCount,
    /// Error 2: the params or the uri are not UTF-8.
    #[error("a link is UTF-8")]
    NotUtf8,
    /// Error 3: a param has no `=`.
    #[error("a link's params are `key=value` between `:`")]
    BadParams,
    /// Error 4: memory was refused.
    #[error("out of memory")]
    Memory,
}

impl From<AllocError> for LinkError {
    ghost use Rattle.termwiz_cell.specs.declared.hyperlink.LinkError.TheVariants.{Memory};

    ghost from_gives = { λ _ e. e ≡ Memory };

    fn from(_refused: AllocError) -> LinkError {
        LinkError::Memory
    }
}

impl Model for Hyperlink {
    ghost use Rattle.termwiz_cell.specs.Link.{Link};

    ghost Value = { Link };

    ghost use Rattle.termwiz_cell.specs.LinkLayout.{link_of};

    ghost view = { link_of };
}

impl Hyperlink {
    /// A link with no params.
    pub fn new(alloc: Global, uri: String) -> Hyperlink
        ensures { result ≡ record { uri = string_bytes uri; params = []; implicit = false } }
    {
        Hyperlink::new_with_params(uri, BTreeMap::new(alloc))
    }

    /// A link with no params that a rule made of the text on a screen.
    pub fn new_implicit(alloc: Global, uri: String) -> Hyperlink
        ensures { result ≡ record { uri = string_bytes uri; params = []; implicit = true } }
    {
        Hyperlink {
            params: BTreeMap::new(alloc),
            uri,
            implicit: true,
        }
    }

    /// A link whose one param is `id`.
    pub fn new_with_id(alloc: Global, uri: String, id: String) -> Result<Hyperlink, AllocError>
        ensures { IfOk result (λ link. link ≡ record {
          uri = string_bytes uri;
          params = (codes "id", string_bytes id) ∷ [];
          implicit = false;
        }) }
    {
        let params = id_params(alloc, id)?;
        Ok(Hyperlink::new_with_params(uri, params))
    }

    /// A link with these params.
    pub fn new_with_params(uri: String, params: BTreeMap<String, String>) -> Hyperlink
        ensures { result
            ≡ record {
              uri = string_bytes uri;
              params = map param_bytes params.entries;
              implicit = false;
            } }
    {
        Hyperlink {
            params,
            uri,
            implicit: false,
        }
    }

    /// A link from its parts, as they were stored or sent: its target, its params, and whether a
    /// rule made it of the text on a screen.
    pub fn from_parts(uri: String, params: BTreeMap<String, String>, implicit: bool) -> Hyperlink
        ensures { result
            ≡ record {
              uri = string_bytes uri;
              params = map param_bytes params.entries;
              implicit = implicit;
            } }
    {
        Hyperlink {
            params,
            uri,
            implicit,
        }
    }

    /// The link's target.
    pub fn uri(&self) -> &str
        ensures { result.now ≡ self.now.uri }
    {
        self.uri.as_str()
    }

    /// The link's params, in the order of their keys.
    pub fn params(&self) -> &BTreeMap<String, String>
        ensures params { map param_bytes result.now.entries ≡ self.now.params }
        ensures ordered { AreInOrder self.now.params }
    {
        // `len` promises that the keys of a map ascend.
        prove!(self.params.len() < usize::MAX);
        &self.params
    }

    /// Whether a rule made the link of the text on a screen.
    pub fn is_implicit(&self) -> bool
        ensures { result ≡ self.now.implicit }
    {
        self.implicit
    }

    /// Parses the three parts of an OSC 8 sequence: one that is ignored, the params and the uri.
    /// Params are `key=value` with `:` between them, each split at its first `=`. Where a key is
    /// repeated, its last value is kept.
    ///
    /// Returns `Ok(None)` where the params and the uri are both empty. The first error that applies
    /// is returned, in the order of `LinkError`.
    pub fn parse(alloc: Global, osc: &[&[u8]]) -> Result<Option<Hyperlink>, LinkError>
        // Each error but `Memory`, and `Ok(None)`, is returned exactly in its case.
        ensures count { (result ≡ Err LinkError.WrongParamCount) ↔ (length osc.now ≢ 3) }
        ensures utf8 { (result ≡ Err LinkError.NotUtf8)
            ↔ ((length osc.now ≡ 3) × ¬ (AreTexts (part osc.now 1) (part osc.now 2))) }
        ensures pairs { (result ≡ Err LinkError.BadParams)
            ↔ ((length osc.now ≡ 3) × AreTexts (part osc.now 1) (part osc.now 2)
            × ¬ (HasPairs (part osc.now 1))) }
        ensures none { (result ≡ Ok None)
            ↔ ((length osc.now ≡ 3) × AreEmpty (part osc.now 1) (part osc.now 2)) }

        // A link that is returned is the one that the params and the uri spell.
        ensures link { IfOk result (λ found.
            IfSome found (SpellsOnly (part osc.now 1) (part osc.now 2))) }

        // A printed link is parsed again to the same link, unless memory is refused.
        ensures back { (link : Link) → IsReadable link → ArePrinted osc.now link
            → MatchResult result (λ found. found ≡ Some link) (λ e. e ≡ LinkError.Memory) }
    {
        match osc {
            [_, params, uri] => read_link(alloc, params, uri),
            _ => Err(LinkError::WrongParamCount),
        }
    }

    fn is_same(&self, other: &Hyperlink) -> bool
        ensures { result ≡ link_eq self.now other.now }
    {
        self.uri == other.uri
            && has_same_params(&self.params, &other.params)
            && self.implicit == other.implicit
    }
}

/// `8;`, the params as `key=value` with `:` between them, in the order of their keys, `;` and the
/// uri.
impl fmt::Display for Hyperlink {
    ghost output = { λ link. Some (link_text link) };

    fn fmt<W: fmt::Write>(&self, f: &mut fmt::Formatter<W>) -> fmt::Result {
        f.write_str("8;")?;
        write_params(&self.params, f)?;
        write!(f, ";{}", self.uri)
    }
}

impl Clone for Hyperlink {
    ghost is_clone = { λ a b. b ≡ a };

    fn clone(&self) -> Result<Hyperlink, AllocError> {
        let params = clone_params(&self.params)?;
        let uri = self.uri.clone()?;
        Ok(Hyperlink {
            params,
            uri,
            implicit: self.implicit,
        })
    }
}

impl PartialEq for Hyperlink {
    ghost eq = { link_eq };

    ghost laws = { partial_equiv_from_equiv (decided link_eq link_eq-Decides) };

    fn eq(&self, other: &Hyperlink) -> bool
        ensures value { result ≡ link_eq self.now other.now }
        ensures same { IsTrue result ↔ (self.now ≡ other.now) }
    {
        self.is_same(other)
    }
}

impl Eq for Hyperlink {
    ghost laws = { decided link_eq link_eq-Decides };
}

/// The link of these params and this uri, or `None` where both are empty.
fn read_link(alloc: Global, params: &[u8], uri: &[u8]) -> Result<Option<Hyperlink>, LinkError>
    ensures { ReadsLink params.now uri.now result }
{
    if are_empty(params, uri) {
        return Ok(None);
    }
    let params = as_text(params)?;
    let uri = as_text(uri)?;
    if !is_pairs(params) {
        return Err(LinkError::BadParams);
    }
    let params = read_params(alloc, params)?;
    let uri = String::from_str(alloc, uri)?;
    Ok(Some(Hyperlink::new_with_params(uri, params)))
}

fn are_empty(params: &[u8], uri: &[u8]) -> bool
    ensures { IsTrue result ↔ AreEmpty params.now uri.now }
{
    params.is_empty() && uri.is_empty()
}

fn as_text(bytes: &[u8]) -> Result<&str, LinkError>
    ensures { MatchResult result
        (λ text. (text.now ≡ bytes.now) × IsUtf8 bytes.now)
        (λ e. (e ≡ LinkError.NotUtf8) × ¬ (IsUtf8 bytes.now)) }
{
    str::from_utf8(bytes).map_err(|_| LinkError::NotUtf8)
}

fn id_params(alloc: Global, id: String) -> Result<BTreeMap<String, String>, AllocError>
    ensures { IfOk result (λ params.
        map param_bytes params.entries ≡ (codes "id", string_bytes id) ∷ []) }
{
    let mut params = BTreeMap::new(alloc);
    params.insert(String::from_str(alloc, "id")?, id)?;
    Ok(params)
}
