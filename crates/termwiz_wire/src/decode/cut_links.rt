//! Links whose params are not all there.
ghost use Rattle.std.specs.Prelude.{◌≡◌, IfErr, IfOk, List, None, OnOk, Option, Some, option_map};
ghost use Rattle.std.specs.Prelude.{true, ℕ};
ghost use Rattle.cbor.specs.Decoding.{Gives, allowed};
ghost use Rattle.cbor.specs.declared.error.ReadError.TheVariants.{Truncated};
ghost use Rattle.termwiz_cell.specs.ChangeValue.{change_value};
ghost use Rattle.termwiz_wire.specs.CutLinks.{IsLinkPart, before_link_by, has_item};
ghost use Rattle.termwiz_wire.specs.CutLinks.{link_begun_at, link_change, link_item_at};
ghost use Rattle.termwiz_wire.specs.CutLinks.{link_part_at, link_rest_at, part_of};
ghost use Rattle.termwiz_wire.specs.Decoding.{change_at};
ghost use Rattle.termwiz_wire.specs.Resuming.{BeginsLink, HasReadOn, ReachesItem};
ghost use Rattle.termwiz_wire.specs.Resuming.{ReadsOn, StopsTruncated};

use super::attributes::{before_link_of, link_alone_of};
use super::changes::{count_of, kind_of};
use super::links::{owned_of, param_key_of, put};
use cbor::{ReadError, Reader};
use std::alloc::{AllocError, Global};
use std::collections::BTreeMap;
use std::rc::Rc;
use termwiz_cell::cell::{AttributeChange, CellAttributes};
use termwiz_cell::change::Change;
use termwiz_cell::hyperlink::Hyperlink;

/// What was decoded of a change of a link.
#[derive(Debug, Drop)]
pub(super) struct BegunLink {
    // Those before the link, in a change of all attributes.
    attributes: Option<CellAttributes>,
    uri: String,
    implicit: bool,
    // The first of its params.
    params: BTreeMap<String, String>,
    // The key of the next one, if it is there.
    key: Option<String>,
    // How many follow these.
    left: usize,
}

/// Decodes what the change at the front of the bytes has of a link whose params have begun: the
/// reader is then before the key or the value of a param that is cut. For any other change the
/// reader stays.
pub(super) fn begin_link(
    alloc: Global,
    reader: &mut Reader<'_>,
) -> Result<Option<BegunLink>, AllocError>
    ensures begins { (measure : List ℕ → ℕ) (rows : Option ℕ) →
        StopsTruncated (change_at measure reader.old.room rows reader.old.bytes.now) →
        IfOk result (λ x. BeginsLink reader.old.room reader.old.bytes.now
        (option_map part_of x) reader.new.bytes.now) }
    ensures room { reader.new.room ≡ reader.old.room }
{
    let start = reader.rest();
    match link_begun_of(alloc, reader) {
        Ok(link) => {
            let link = with_params(alloc, link, reader)?;
            Ok(Some(link))
        }
        Err(error) => match error {
            ReadError::Memory => Err(AllocError),
            _ => {
                reader.bytes = start;
                Ok(None)
            }
        },
    }
}

// The link with those of its params that are there. The reader is then before the key or the value
// that is cut.
fn with_params(
    alloc: Global,
    link: BegunLink,
    reader: &mut Reader<'_>,
) -> Result<BegunLink, AllocError>
    requires { IsLinkPart (part_of link) }
    ensures reads { StopsTruncated
        (link_rest_at reader.old.room (part_of link) reader.old.bytes.now) →
        IfOk result (λ x. HasReadOn reader.old.room (part_of link) reader.old.bytes.now (part_of x)
        reader.new.bytes.now × ReachesItem reader.old.room (part_of x) reader.new.bytes.now) }
    ensures room { reader.new.room ≡ reader.old.room }
{
    let mut link = link;
    match read_params(alloc, &mut link, reader) {
        Ok(()) => Ok(link),
        Err(error) => match error {
            ReadError::Memory => Err(AllocError),
            _ => Ok(link),
        },
    }
}

// Decodes a change of a link, up to the params.
#[tactic(auto, unfolding(crate::specs::CutLinks::link_begun_at))]
fn link_begun_of(alloc: Global, reader: &mut Reader<'_>) -> Result<BegunLink, ReadError>
    ensures value { Gives (allowed reader.new.room reader.new.bytes.now)
        (λ x. (part_of x, reader.new.bytes.now)) result
        (link_begun_at reader.old.room reader.old.bytes.now) }
    ensures keys { IfOk result (λ x. IsLinkPart (part_of x)) }
    ensures room { reader.new.room ≡ reader.old.room }
{
    let count = count_of(reader)?;
    let kind = kind_of(reader, count)?;
    let attributes = attributes_of(alloc, kind, reader)?;
    link_part_of(alloc, attributes, reader)
}

// Decodes what a change of this kind has before its link.
fn attributes_of(
    alloc: Global,
    kind: usize,
    reader: &mut Reader<'_>,
) -> Result<Option<CellAttributes>, ReadError>
    ensures value { Gives (allowed reader.new.room reader.new.bytes.now)
        (λ x. (x, reader.new.bytes.now)) result
        (before_link_by reader.old.room kind reader.old.bytes.now) }
    ensures room { reader.new.room ≡ reader.old.room }
{
    match kind {
        0 => {
            link_alone_of(reader)?;
            Ok(None)
        }
        1 => Ok(Some(before_link_of(alloc, reader)?)),
        _ => Err(ReadError::Type),
    }
}

// Decodes a link after these attributes, up to its params.
#[tactic(auto, unfolding(crate::specs::CutLinks::link_part_at))]
fn link_part_of(
    alloc: Global,
    attributes: Option<CellAttributes>,
    reader: &mut Reader<'_>,
) -> Result<BegunLink, ReadError>
    ensures value { Gives (allowed reader.new.room reader.new.bytes.now)
        (λ x. (part_of x, reader.new.bytes.now)) result
        (link_part_at reader.old.room attributes reader.old.bytes.now) }
    ensures keys { IfOk result (λ x. IsLinkPart (part_of x)) }
    ensures room { reader.new.room ≡ reader.old.room }
{
    reader.array_of(3)?;
    let uri = owned_of(alloc, reader)?;
    let implicit = reader.boolean()?;
    let left = reader.list()?;
    Ok(BegunLink {
        attributes,
        uri,
        implicit,
        params: BTreeMap::new(alloc),
        key: None,
        left,
    })
}

/// Decodes the params that are left. Where the bytes end within one, it fails with `Truncated`, and
/// the reader is before the key or the value that is cut.
pub(super) fn read_params(
    alloc: Global,
    link: &mut BegunLink,
    reader: &mut Reader<'_>,
) -> Result<(), ReadError>
    requires { IsLinkPart (part_of link.old) }
    ensures reads { ReadsOn reader.old.room (part_of link.old) reader.old.bytes.now result
        (part_of link.new) (allowed reader.new.room reader.new.bytes.now) reader.new.bytes.now }
    ensures room { reader.new.room ≡ reader.old.room }
{
    'items: while has_item(link) {
        let start = reader.rest();
        match read_item(alloc, link, reader) {
            Ok(()) => {}
            Err(error) => match error {
                ReadError::Truncated => {
                    reader.bytes = start;
                    return Err(error);
                }
                _ => return Err(error),
            },
        }
    }
    Ok(())
}

// Whether a key or a value of the params is left.
fn has_item(link: &BegunLink) -> bool
    ensures { result ≡ has_item (part_of link.now) }
{
    match &link.key {
        None => link.left > 0,
        Some(_) => true,
    }
}

// Decodes the key of the next param, or the value of the one whose key is there.
fn read_item(alloc: Global, link: &mut BegunLink, reader: &mut Reader<'_>) -> Result<(), ReadError>
    requires keys { IsLinkPart (part_of link.old) }
    requires some { has_item (part_of link.old) ≡ true }
    ensures value { Gives (allowed reader.new.room reader.new.bytes.now)
        (λ _. (part_of link.new, reader.new.bytes.now)) result
        (link_item_at reader.old.room (part_of link.old) reader.old.bytes.now) }
    ensures keys { OnOk result (IsLinkPart (part_of link.new)) }
    ensures kept { IfErr result (λ error. error ≡ Truncated →
        part_of link.new ≡ part_of link.old) }
    ensures room { reader.new.room ≡ reader.old.room }
{
    match link.key.take() {
        None => {
            let key = param_key_of(alloc, &link.params, reader)?;
            link.key = Some(key);
            link.left -= 1;
            Ok(())
        }
        Some(key) => match owned_of(alloc, reader) {
            Ok(value) => {
                put(&mut link.params, key, value)?;
                Ok(())
            }
            Err(error) => {
                link.key = Some(key);
                Err(error)
            }
        },
    }
}

/// The change of a link with these params.
pub(super) fn link_change(alloc: Global, link: BegunLink) -> Result<Change, AllocError>
    ensures { IfOk result (λ x. change_value x
        ≡ link_change (part_of link) (part_of link).params) }
{
    let BegunLink {
        attributes,
        uri,
        implicit,
        params,
        ..
    } = link;
    let hyperlink = Rc::new(alloc, Hyperlink::from_parts(uri, params, implicit))?;
    match attributes {
        None => Ok(Change::Attribute(AttributeChange::Hyperlink(Some(hyperlink)))),
        Some(mut attributes) => {
            attributes.change_hyperlink(alloc, Some(hyperlink))?;
            Ok(Change::AllAttributes(attributes))
        }
    }
}
