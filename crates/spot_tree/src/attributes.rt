//! Attributes of an element.

ghost use Rattle.std.specs.Prelude.{◌≡◌, map, option_map, Ok, IfOk, IfSome, is_some, string_bytes, List, ℕ, true};
ghost use Rattle.serde_json.specs.Data.{Members, string, put};
ghost use Rattle.serde_json.specs.View.{members_view};
ghost use Rattle.spot_tree.specs.Ordered.{IsPlace};
ghost use Rattle.spot_claims.specs.Tree.{are_strings, pairs_of, value_at};
ghost use Rattle.spot_tree.specs.Views.{pair};

use crate::node::Attribute;
use serde_json::{Map, Value};
use std::alloc::{AllocError, Global};
use std::cmp::Ordering;

/// An object's members as attributes, or none where one isn't a string.
pub(crate) fn moved_attributes(
    alloc: Global,
    members: Map<String, Value>,
) -> Result<Option<Vec<Attribute>>, AllocError>
    ensures is { IfOk result (λ moved. is_some moved ≡ are_strings (members_view members.entries)) }
    ensures pairs { IfOk result (λ moved. IfSome moved (λ moved. map pair moved.items ≡ pairs_of (members_view members.entries))) }
{
    let mut attributes = Vec::new(alloc);
    for (key, value) in members {
        let Value::String(value) = value else {
            return Ok(None);
        };
        attributes.push(Attribute { key, value })?;
    }
    Ok(Some(attributes))
}

/// The text of the attribute with this key, if there is one.
pub(crate) fn value_of<'a>(attributes: &'a Vec<Attribute>, key: &str) -> Option<&'a str>
    ensures { option_map (λ s. s.now) result ≡ value_at key.now (map pair attributes.now.items) }
{
    for attribute in attributes {
        if attribute.key.as_str() == key {
            return Some(attribute.value.as_str());
        }
    }
    None
}

// Where an attribute with this key goes, or none where there is one.
fn place_of(attributes: &[Attribute], key: &str) -> Option<usize>
    ensures { IfSome result (λ i. IsPlace key.now (map pair attributes.now) i) }
{
    for i in 0..attributes.len() {
        match key.cmp(attributes[i].key.as_str()) {
            Ordering::Less => return Some(i),
            Ordering::Equal => return None,
            Ordering::Greater => {}
        }
    }
    Some(attributes.len())
}

/// Puts an attribute among others by its key, if they are few and none has it.
pub(crate) fn put_in_order(
    attributes: &mut Vec<Attribute>,
    key: String,
    value: String,
) -> Result<bool, AllocError>
    ensures { result ≡ Ok true → (found : Members) → map pair attributes.old.items ≡ pairs_of found
        → map pair attributes.new.items ≡ pairs_of (put (string_bytes key) (string (string_bytes value)) found) }
{
    if attributes.len() > 16 {
        return Ok(false);
    }
    let Some(i) = place_of(attributes.as_slice(), key.as_str()) else {
        return Ok(false);
    };
    attributes.reserve_exact(1)?;
    attributes.insert(i, Attribute { key, value })?;
    Ok(true)
}

/// Puts an attribute of these texts among others by its key, if they are few and none has it.
pub(crate) fn put_text(
    alloc: Global,
    attributes: &mut Vec<Attribute>,
    key: &str,
    value: &str,
) -> Result<bool, AllocError>
    ensures { result ≡ Ok true → (found : Members) → map pair attributes.old.items ≡ pairs_of found
        → map pair attributes.new.items ≡ pairs_of (put key.now (string value.now) found) }
{
    let key = String::from_str(alloc, key)?;
    let value = String::from_str(alloc, value)?;
    put_in_order(attributes, key, value)
}
