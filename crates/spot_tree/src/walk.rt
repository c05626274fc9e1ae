//! From a JSON value to a flat list of elements.

ghost use Rattle.std.specs.Prelude.{◌≡◌, ◌≢◌, ◌+◌, ◌≤◌, ◌<◌, ◌++◌, length, IfOk, OnOk, slice_set, slice_index_or, string_bytes};
ghost use Rattle.serde_json.specs.View.{view, items_view};
ghost use Rattle.serde_json.specs.Data.{array};
ghost use Rattle.spot_claims.specs.Tree.{wanted, wanted_in, joined, trimmed, children_from, numbered, fault_from, no_element};
ghost use Rattle.spot_tree.specs.Views.{element, elements};
ghost use Rattle.spot_tree.specs.Opening.{content_view, filled};
ghost use Rattle.spot_tree.specs.Answers.{Walks};

use crate::TreeFault;
use crate::node::Node;
use crate::opened::{Opened, open_element};
use crate::text::{append, without_blanks};
use serde_json::Value;
use spot_terms::MOST_BYTES;
use std::alloc::Global;
use std::vec::IntoIter;

// The content of an element.
#[derive(Drop)]
struct Content {
    /// Its strings, joined.
    text: String,
    /// The numbers of the elements in it.
    children: Vec<u32>,
}

/// Adds the elements of a value that must be one, itself the first. Answers the number of the first value in it that must
/// be an element and is none.
#[cycle(add_elements)]
pub(crate) fn add_elements(
    alloc: Global,
    value: Value,
    nodes: &mut Vec<Node>,
) -> Result<(), TreeFault>
    requires room { length nodes.old.items + length (wanted (view value)) ≤ MOST_BYTES }
    requires one { length (wanted (view value)) ≢ 0 }
    ensures ok { OnOk result (elements nodes.new.items
        ≡ elements nodes.old.items ++ numbered (length nodes.old.items) (wanted (view value))) }
    ensures fault { Walks (fault_from (length nodes.old.items) (wanted (view value))) result }
{
    match value {
        Value::Array(items) => add_array(alloc, items, nodes),
        _ => Err(TreeFault::NotTree(nodes.len() as u32)),
    }
}

#[cycle(add_elements)]
fn add_array(alloc: Global, items: Vec<Value>, nodes: &mut Vec<Node>) -> Result<(), TreeFault>
    requires room { length nodes.old.items + length (wanted (array (items_view items.items))) ≤ MOST_BYTES }
    ensures ok { OnOk result (elements nodes.new.items
        ≡ elements nodes.old.items ++ numbered (length nodes.old.items) (wanted (array (items_view items.items)))) }
    ensures fault { Walks (fault_from (length nodes.old.items) (wanted (array (items_view items.items)))) result }
{
    let at = nodes.len();
    let Some(Opened { node, first, rest }) = open_element(alloc, items)? else {
        return Err(TreeFault::NotTree(at as u32));
    };
    nodes.push(node)?;
    let content = add_content(alloc, first, rest, nodes)?;
    let text = without_blanks(alloc, content.text)?;
    set_content(nodes, at, text, content.children);
    Ok(())
}

// Gives an element its text and its children.
pub(crate) fn set_content(nodes: &mut Vec<Node>, at: usize, text: String, children: Vec<u32>)
    requires { at < length nodes.old.items }
    ensures { elements nodes.new.items ≡ slice_set (elements nodes.old.items) at (filled (slice_index_or (elements nodes.old.items) at no_element) (string_bytes text) children.items) }
{
    let node = &mut nodes[at];
    node.text = text;
    node.children = children;
}

// Adds the elements of all items of a content, the first and the rest, and gives the strings and the numbers of those
// that the items are.
#[cycle(add_elements)]
fn add_content(
    alloc: Global,
    first: Option<Value>,
    mut rest: IntoIter<Value, Global>,
    nodes: &mut Vec<Node>,
) -> Result<Content, TreeFault>
    requires room { length nodes.old.items + length (wanted_in (content_view first rest)) ≤ MOST_BYTES }
    ensures ok { OnOk result (elements nodes.new.items
        ≡ elements nodes.old.items ++ numbered (length nodes.old.items) (wanted_in (content_view first rest))) }
    ensures content { IfOk result (λ content. (string_bytes content.text ≡ joined (content_view first rest))
        × (content.children.items ≡ children_from (length nodes.old.items) (content_view first rest))) }
    ensures fault { Walks (fault_from (length nodes.old.items) (wanted_in (content_view first rest))) result }
{
    let mut text = String::new(alloc);
    let mut children = Vec::new(alloc);
    let mut next = first;
    while let Some(item) = next {
        match item {
            Value::String(part) => append(&mut text, part)?,
            value => {
                children.push(nodes.len() as u32)?;
                add_elements(alloc, value, nodes)?;
            }
        }
        next = rest.next();
    }
    Ok(Content { text, children })
}
