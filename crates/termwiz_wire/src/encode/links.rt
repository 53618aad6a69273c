//! Links.
ghost use Rattle.std.specs.Prelude.{◌≡◌, ◌<◌, ◌^◌, ◌++◌, length, map, OnOk};
ghost use Rattle.std.specs.List.{AllByRecursion, flat_map};
ghost use Rattle.cbor.specs.Encoding.{Extends};
ghost use Rattle.termwiz_cell.specs.Link.{linked, param_bytes};
ghost use Rattle.termwiz_wire.specs.Forms.{IsLink, IsOptionalLink, IsParam};
ghost use Rattle.termwiz_wire.specs.Encoding.{link, optional_link, param};

use cbor::{put_array, put_bool, put_null, put_text};
use std::alloc::AllocError;
use std::collections::BTreeMap;
use std::rc::Rc;
use termwiz_cell::hyperlink::Hyperlink;

/// Appends a link, where there is one.
pub(super) fn put_optional_link(
    out: &mut Vec<u8>,
    target: &Option<Rc<Hyperlink>>,
) -> Result<(), AllocError>
    ensures written { OnOk result
        (out.new.items ≡ out.old.items ++ optional_link (linked target.now)) }
    ensures kept { Extends out.old.items out.new.items }
    ensures form { OnOk result (IsOptionalLink (linked target.now)) }
{
    match target {
        None => put_null(out),
        Some(target) => put_link(out, target),
    }
}

/// Appends a link.
#[tactic(auto, unfolding(crate::specs::Encoding::link))]
pub(super) fn put_link(out: &mut Vec<u8>, target: &Hyperlink) -> Result<(), AllocError>
    ensures written { OnOk result (out.new.items ≡ out.old.items ++ link target.now) }
    ensures kept { Extends out.old.items out.new.items }
    ensures form { OnOk result (IsLink target.now) }
{
    put_array(out, 3)?;
    put_text(out, target.uri())?;
    put_bool(out, target.is_implicit())?;
    let params = target.params();
    put_array(out, params.len())?;
    put_params(out, params)
}

fn put_params(out: &mut Vec<u8>, params: &BTreeMap<String, String>) -> Result<(), AllocError>
    ensures written { OnOk result (out.new.items
        ≡ out.old.items ++ flat_map param (map param_bytes params.now.entries)) }
    ensures kept { Extends out.old.items out.new.items }
    ensures form { OnOk result (AllByRecursion IsParam (map param_bytes params.now.entries)) }
{
    for (key, value) in params {
        put_param(out, key.as_str(), value.as_str())?;
    }
    Ok(())
}

#[tactic(auto, unfolding(crate::specs::Encoding::param))]
fn put_param(out: &mut Vec<u8>, key: &str, value: &str) -> Result<(), AllocError>
    ensures written { OnOk result (out.new.items ≡ out.old.items ++ param (key.now, value.now)) }
    ensures kept { Extends out.old.items out.new.items }
    ensures form { OnOk result (IsParam (key.now, value.now)) }
{
    put_array(out, 2)?;
    put_text(out, key)?;
    put_text(out, value)
}
