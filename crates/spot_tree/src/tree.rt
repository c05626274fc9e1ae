//! The whole tree.

ghost use Rattle.std.specs.Prelude.{◌≡◌, ◌<◌, ◌≤◌, length, option_map, IfSome};
ghost use Rattle.std.specs.List.{All};
ghost use Rattle.spot_claims.specs.Tree.{IsTree, element_in, attribute_at, text_at, first_named, Rising};
ghost use Rattle.spot_tree.specs.Answers.{ReadsTree};

use crate::TreeFault;
use crate::attributes::value_of;
use crate::node::Node;
use crate::plain::read_plain;
use crate::slots::Slots;
use crate::walk::add_elements;
use serde_json::Value;
use spot_terms::MOST_BYTES;
use std::alloc::Global;
use std::marker::Model;

/// Elements in document order, numbered from 0, of which the first holds all others. There are at least one and at most
/// 67,108,864.
#[derive(Drop)]
pub struct Tree {
    form: Form,
}

/// The elements of a plain text, or of any.
#[derive(Drop)]
pub(crate) enum Form {
    Plain(Slots),
    Any(Vec<Node>),
}

impl Model for Tree {
    ghost use Rattle.std.specs.Prelude.{List};
    ghost use Rattle.spot_claims.specs.Tree.{Element, IsTree};
    ghost use Rattle.spot_tree.specs.Forms.{form_elements};

    ghost Value = { List Element };

    ghost view = { λ t. form_elements t.form };

    ghost invariant = { λ t. IsTree (form_elements t.form) };
}

impl Tree {
    /// How many elements there are, 1 to 67,108,864. Children are among them, an element's children stand in document
    /// order, the first element is no child, and each other is a child once at most.
    pub fn len(&self) -> u32
        ensures same { result ≡ length self.now }
        ensures some { 0 < result }
        ensures few { result ≤ MOST_BYTES }
        ensures tree { IsTree self.now }
    {
        match &self.form {
            Form::Plain(slots) => slots.len() as u32,
            Form::Any(nodes) => nodes.len() as u32,
        }
    }

    /// The name of an element, which is below `len`.
    pub fn name(&self, e: u32) -> &str
        requires { e < length self.now }
        ensures { result.now ≡ (element_in self.now e).name }
    {
        match &self.form {
            Form::Plain(slots) => slots.name(e as usize),
            Form::Any(nodes) => nodes[e as usize].name.as_str(),
        }
    }

    /// The strings in an element, which is below `len`, joined in order, without blanks at both ends.
    pub fn text(&self, e: u32) -> &str
        requires { e < length self.now }
        ensures { result.now ≡ text_at self.now e }
    {
        match &self.form {
            Form::Plain(slots) => slots.text(e as usize),
            Form::Any(nodes) => nodes[e as usize].text.as_str(),
        }
    }

    /// How many attributes an element has, which is below `len`.
    pub fn attribute_count(&self, e: u32) -> usize
        requires { e < length self.now }
        ensures { result ≡ length (element_in self.now e).attributes }
    {
        match &self.form {
            Form::Plain(slots) => slots.attributes(e as usize).len(),
            Form::Any(nodes) => nodes[e as usize].attributes.len(),
        }
    }

    /// The text of an element's attribute with this key, exactly where it has one. The element is below `len`.
    pub fn attr(&self, e: u32, key: &str) -> Option<&str>
        requires { e < length self.now }
        ensures { option_map (λ s. s.now) result ≡ attribute_at self.now e key.now }
    {
        match &self.form {
            Form::Plain(slots) => value_of(slots.attributes(e as usize), key),
            Form::Any(nodes) => value_of(&nodes[e as usize].attributes, key),
        }
    }

    /// The first child of this name, exactly where there is one. The element is below `len`, and so is the child.
    pub fn child(&self, e: u32, name: &str) -> Option<u32>
        requires { e < length self.now }
        ensures first { result ≡ first_named self.now name.now e }
        ensures within { IfSome result (λ c. c < length self.now) }
    {
        for c in self.children(e) {
            if self.name(*c) == name {
                return Some(*c);
            }
        }
        None
    }

    /// The children of an element, which is below `len`, in document order, so that their numbers rise. They are below
    /// `len` too.
    pub fn children(&self, e: u32) -> &[u32]
        requires { e < length self.now }
        ensures same { result.now ≡ (element_in self.now e).children }
        ensures within { All (λ c. c < length self.now) result.now }
        ensures rising { Rising 0 result.now }
    {
        match &self.form {
            Form::Plain(slots) => slots.children(e as usize),
            Form::Any(nodes) => nodes[e as usize].children.as_slice(),
        }
    }
}

/// Reads the tree of a JSON text, of at most 67,108,864 bytes.
///
/// An element is an array of a name, which is a string that isn't empty, then maybe an object of strings, its attributes,
/// then strings and elements. All must be elements but names, attributes and strings. Answers `NotJson` exactly where the
/// bytes are no JSON text, in UTF-8 and with nesting of at most 127, and `NotTree` exactly where a value that must be an
/// element isn't one by itself, with the number that the first of them would have.
pub fn read_tree(alloc: Global, bytes: &[u8]) -> Result<Tree, TreeFault>
    requires { length bytes.now ≤ MOST_BYTES }
    ensures { ReadsTree bytes.now result }
{
    match read_plain(alloc, bytes) {
        Ok(Some(slots)) => Ok(Tree {
            form: Form::Plain(slots),
        }),
        Ok(None) => read_any(alloc, bytes),
        Err(_) => Err(TreeFault::Memory),
    }
}

// The same, for any text.
fn read_any(alloc: Global, bytes: &[u8]) -> Result<Tree, TreeFault>
    requires { length bytes.now ≤ MOST_BYTES }
    ensures { ReadsTree bytes.now result }
{
    let value = match Value::from_slice(alloc, bytes) {
        Ok(value) => value,
        Err(error) if error.is_memory() => return Err(TreeFault::Memory),
        Err(_) => return Err(TreeFault::NotJson),
    };
    if value.is_string() {
        return Err(TreeFault::NotTree(0));
    }
    let mut nodes = Vec::new(alloc);
    add_elements(alloc, value, &mut nodes)?;
    Ok(Tree {
        form: Form::Any(nodes),
    })
}
