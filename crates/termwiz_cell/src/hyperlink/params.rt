//! The params of a link: parsing, printing, comparing and copying them.
ghost use Rattle.std.specs.Prelude.{◌≡◌, IfOk, OnOk, map, string_bytes};
ghost use Rattle.termwiz_cell.specs.{WritesOnOk, are_pairs, has_equals, pair_of, param_bytes};
ghost use Rattle.termwiz_cell.specs.{param_eq, params_of, params_text, pointwise, with_pair};

use std::alloc::{AllocError, Global};
use std::collections::BTreeMap;
use std::fmt;

/// Whether each part of the text between `:` has a `=`. The empty text has no part.
pub(super) fn is_pairs(text: &str) -> bool
    ensures { result ≡ are_pairs text.now }
{
    text.is_empty() || text.split(':').all(|part| is_pair(part))
}

fn is_pair(part: &str) -> bool
    ensures { result ≡ has_equals part.now }
{
    part.bytes().any(|b| b == b'=')
}

/// The params that the text's pairs make. Where a key is repeated, its last value is kept.
pub(super) fn read_params(alloc: Global, text: &str) -> Result<BTreeMap<String, String>, AllocError>
    ensures { IfOk result (λ params. map param_bytes params.entries ≡ params_of text.now) }
{
    let mut params = BTreeMap::new(alloc);
    if text.is_empty() {
        return Ok(params);
    }
    for part in text.split(':') {
        put_pair(alloc, &mut params, part)?;
    }
    Ok(params)
}

/// Inserts a part's value, which follows its first `=`, at its key.
fn put_pair(
    alloc: Global,
    params: &mut BTreeMap<String, String>,
    part: &str,
) -> Result<(), AllocError>
    ensures { OnOk result (map param_bytes params.new.entries
        ≡ with_pair (map param_bytes params.old.entries) (pair_of part.now)) }
{
    let (key, value) = part.split_once('=').unwrap_or((part, ""));
    let key = String::from_str(alloc, key)?;
    let value = String::from_str(alloc, value)?;
    put(params, key, value)
}

#[tactic(auto, using(crate::proofs::ParamLists::params_insert_entry))]
fn put(params: &mut BTreeMap<String, String>, key: String, value: String) -> Result<(), AllocError>
    ensures { OnOk result (map param_bytes params.new.entries
        ≡ with_pair (map param_bytes params.old.entries) (string_bytes key, string_bytes value)) }
{
    params.insert(key, value)?;
    Ok(())
}

/// Writes the pairs `key=value` in the order of their keys, with `:` between each two.
pub(super) fn write_params<W: fmt::Write>(
    params: &BTreeMap<String, String>,
    f: &mut fmt::Formatter<W>,
) -> fmt::Result
    ensures { WritesOnOk W.write_str_gives f.old result
        (params_text (map param_bytes params.now.entries)) f.new }
{
    let mut separator = "";
    for (key, value) in params {
        write!(f, "{separator}{key}={value}")?;
        separator = ":";
    }
    Ok(())
}

pub(super) fn clone_params(
    params: &BTreeMap<String, String>,
) -> Result<BTreeMap<String, String>, AllocError>
    ensures { IfOk result (λ copy.
        map param_bytes copy.entries ≡ map param_bytes params.now.entries) }
{
    params.clone()
}

pub(super) fn has_same_params(a: &BTreeMap<String, String>, b: &BTreeMap<String, String>) -> bool
    ensures { result
        ≡ pointwise param_eq (map param_bytes a.now.entries) (map param_bytes b.now.entries) }
{
    // Few links have params.
    if a.is_empty() && b.is_empty() {
        return true;
    }
    *a == *b
}
