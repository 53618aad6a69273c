//! Links.
ghost use Rattle.std.specs.Prelude.{◌≡◌, ◌++◌, [], ◌∷◌, map, string_bytes, true, IfOk};
ghost use Rattle.std.specs.Prelude.{OnOk};
ghost use Rattle.cbor.specs.Decoding.{Gives, allowed, text_at};
ghost use Rattle.termwiz_cell.specs.Link.{linked, param_bytes};
ghost use Rattle.termwiz_cell.specs.LinkPairs.{with_pair};
ghost use Rattle.termwiz_wire.specs.Decoding.{ascends, key_at, link_at, optional_link_at};
ghost use Rattle.termwiz_wire.specs.CutLinks.{param_key_at};
ghost use Rattle.termwiz_wire.specs.Decoding.{param_item_at, params_at};

use cbor::{Kind, ReadError, Reader};
use std::alloc::{AllocError, Global};
use std::collections::BTreeMap;
use std::rc::Rc;
use termwiz_cell::hyperlink::Hyperlink;

/// Decodes a link, where there is one.
#[tactic(auto, unfolding(crate::specs::Decoding::optional_link_at))]
pub(super) fn optional_link_of(
    alloc: Global,
    reader: &mut Reader<'_>,
) -> Result<Option<Rc<Hyperlink>>, ReadError>
    ensures value { Gives (allowed reader.new.room reader.new.bytes.now)
        (λ x. (linked x, reader.new.bytes.now)) result
        (optional_link_at reader.old.room reader.old.bytes.now) }
    ensures room { reader.new.room ≡ reader.old.room }
{
    match reader.kind()? {
        Kind::Null => {
            reader.null()?;
            Ok(None)
        }
        Kind::Array => {
            let link = some_link_of(alloc, reader)?;
            Ok(Some(link))
        }
        _ => Err(ReadError::Type),
    }
}

// A link. It is a function of its own, so that the path without a link is short.
#[inline(never)]
fn some_link_of(alloc: Global, reader: &mut Reader<'_>) -> Result<Rc<Hyperlink>, ReadError>
    ensures value { Gives (allowed reader.new.room reader.new.bytes.now)
        (λ x. (x.value, reader.new.bytes.now)) result
        (link_at reader.old.room reader.old.bytes.now) }
    ensures room { reader.new.room ≡ reader.old.room }
{
    let link = link_of(alloc, reader)?;
    let link = Rc::new(alloc, link)?;
    Ok(link)
}

#[tactic(auto, unfolding(crate::specs::Decoding::link_at))]
fn link_of(alloc: Global, reader: &mut Reader<'_>) -> Result<Hyperlink, ReadError>
    ensures value { Gives (allowed reader.new.room reader.new.bytes.now)
        (λ x. (x, reader.new.bytes.now)) result
        (link_at reader.old.room reader.old.bytes.now) }
    ensures room { reader.new.room ≡ reader.old.room }
{
    reader.array_of(3)?;
    let uri = owned_of(alloc, reader)?;
    let implicit = reader.boolean()?;
    let count = reader.list()?;
    let params = params_of(alloc, count, reader)?;
    Ok(Hyperlink::from_parts(uri, params, implicit))
}

/// Decodes a text of its own.
pub(super) fn owned_of(alloc: Global, reader: &mut Reader<'_>) -> Result<String, ReadError>
    ensures value { Gives (allowed reader.new.room reader.new.bytes.now)
        (λ x. (string_bytes x, reader.new.bytes.now)) result
        (text_at reader.old.room reader.old.bytes.now) }
    ensures room { reader.new.room ≡ reader.old.room }
{
    let text = reader.text()?;
    let text = String::from_str(alloc, text)?;
    Ok(text)
}

fn params_of(
    alloc: Global,
    count: usize,
    reader: &mut Reader<'_>,
) -> Result<BTreeMap<String, String>, ReadError>
    ensures value { Gives (allowed reader.new.room reader.new.bytes.now)
        (λ x. (map param_bytes x.entries, reader.new.bytes.now)) result
        (params_at reader.old.room [] count reader.old.bytes.now) }
    ensures room { reader.new.room ≡ reader.old.room }
{
    let mut params = BTreeMap::new(alloc);
    for _ in 0..count {
        let (key, value) = param_of(alloc, &params, reader)?;
        put(&mut params, key, value)?;
    }
    Ok(params)
}

// A param whose key is above those that there are.
#[tactic(auto, unfolding(crate::specs::Decoding::param_item_at, crate::specs::CutLinks::param_key_at))]
fn param_of(
    alloc: Global,
    before: &BTreeMap<String, String>,
    reader: &mut Reader<'_>,
) -> Result<(String, String), ReadError>
    ensures value { Gives (allowed reader.new.room reader.new.bytes.now)
        (λ x. ((string_bytes x.0, string_bytes x.1), reader.new.bytes.now)) result
        (param_item_at reader.old.room (map param_bytes before.now.entries) reader.old.bytes.now) }
    ensures above { IfOk result (λ x.
        ascends (map param_bytes before.now.entries) (string_bytes x.0) ≡ true) }
    ensures room { reader.new.room ≡ reader.old.room }
{
    let key = param_key_of(alloc, before, reader)?;
    let value = owned_of(alloc, reader)?;
    Ok((key, value))
}

/// Decodes the head of a param, and its key, which is above those that there are.
#[inline(always)]
#[tactic(auto, unfolding(crate::specs::CutLinks::param_key_at))]
pub(super) fn param_key_of(
    alloc: Global,
    before: &BTreeMap<String, String>,
    reader: &mut Reader<'_>,
) -> Result<String, ReadError>
    ensures value { Gives (allowed reader.new.room reader.new.bytes.now)
        (λ x. (string_bytes x, reader.new.bytes.now)) result
        (param_key_at reader.old.room (map param_bytes before.now.entries) reader.old.bytes.now) }
    ensures above { IfOk result (λ x.
        ascends (map param_bytes before.now.entries) (string_bytes x) ≡ true) }
    ensures room { reader.new.room ≡ reader.old.room }
{
    reader.array_of(2)?;
    let key = key_of(before, reader)?;
    let key = String::from_str(alloc, key)?;
    Ok(key)
}

// A key that is above those that there are.
#[tactic(auto, unfolding(crate::specs::Decoding::key_at))]
fn key_of<'a>(
    before: &BTreeMap<String, String>,
    reader: &mut Reader<'a>,
) -> Result<&'a str, ReadError>
    ensures value { Gives (allowed reader.new.room reader.new.bytes.now)
        (λ x. (x.now, reader.new.bytes.now)) result
        (key_at reader.old.room (map param_bytes before.now.entries) reader.old.bytes.now) }
    ensures above { IfOk result (λ x.
        ascends (map param_bytes before.now.entries) x.now ≡ true) }
    ensures room { reader.new.room ≡ reader.old.room }
{
    let start = reader.bytes;
    let key = reader.text()?;
    if !ascends(before, key) {
        reader.bytes = start;
        return Err(ReadError::Range);
    }
    Ok(key)
}

// Whether the key is above the last one.
fn ascends(params: &BTreeMap<String, String>, key: &str) -> bool
    ensures { result ≡ ascends (map param_bytes params.now.entries) key.now }
{
    match params.last_key_value() {
        None => true,
        Some((last, _)) => last.as_str() < key,
    }
}

/// Puts a param among those that there are.
#[tactic(auto, using(termwiz_cell::proofs::ParamLists::params_insert_entry))]
pub(super) fn put(
    params: &mut BTreeMap<String, String>,
    key: String,
    value: String,
) -> Result<(), AllocError>
    ensures { OnOk result (map param_bytes params.new.entries
        ≡ with_pair (map param_bytes params.old.entries) (string_bytes key, string_bytes value)) }
{
    params.insert(key, value)?;
    Ok(())
}
