//! Names with attributes, which elements share.
ghost use Rattle.std.specs.Prelude.{◌≡◌, ◌<◌, [], map, length, IfOk, IfSome};
ghost use Rattle.spot_tree.specs.Views.{pair};
ghost use Rattle.spot_tree.specs.Spans.{IsGrown, tag_in};

use crate::node::Attribute;
use std::alloc::{AllocError, Global};
use std::marker::Model;

// How many names are remembered.
const PLACES: usize = 256;

/// A name with attributes.
#[derive(Drop)]
pub(crate) struct Tag {
    pub(crate) name: String,
    pub(crate) attributes: Vec<Attribute>,
}

/// Tags, of which one without attributes is found again by its name as long as it is remembered.
#[derive(Drop)]
pub(crate) struct Tags {
    alloc: Global,
    tags: Vec<Tag>,
    remembered: [u32; PLACES],
}

impl Model for Tags {
    ghost use Rattle.std.specs.Prelude.{ℕ, List, map};
    ghost use Rattle.spot_tree.specs.Spans.{tag_pair};

    ghost Value = { List (List ℕ × List (List ℕ × List ℕ)) };

    ghost view = { λ t. map tag_pair t.tags.items };
}

impl Tags {
    /// No tag.
    pub(crate) fn new(alloc: Global) -> Tags
        ensures { result ≡ [] }
    {
        Tags {
            alloc,
            tags: Vec::new(alloc),
            remembered: [0; PLACES],
        }
    }

    /// How the elements of a tag are called.
    pub(crate) fn name(&self, i: u32) -> &str
        requires { i < length self.now }
        ensures { result.now ≡ (tag_in self.now i).0 }
    {
        self.tags[i as usize].name.as_str()
    }

    /// The attributes of a tag.
    pub(crate) fn attributes(&self, i: u32) -> &Vec<Attribute>
        requires { i < length self.now }
        ensures { map pair result.now.items ≡ (tag_in self.now i).1 }
    {
        &self.tags[i as usize].attributes
    }

    /// The number of a tag with this name and these attributes, if there is room.
    pub(crate) fn number_of(
        &mut self,
        name: &str,
        attributes: Vec<Attribute>,
    ) -> Result<Option<u32>, AllocError>
        ensures grown { IsGrown self.old self.new }
        ensures within { IfOk result (λ o. IfSome o (λ i. i < length self.new)) }
        ensures is { IfOk result (λ o. IfSome o (λ i. tag_in self.new i ≡ (name.now, map pair attributes.items))) }
    {
        if !attributes.is_empty() {
            return self.add(name, attributes);
        }
        if let Some(i) = self.known(name) {
            return Ok(Some(i));
        }
        let Some(i) = self.add(name, attributes)? else {
            return Ok(None);
        };
        self.remembered[place_of(name)] = i;
        Ok(Some(i))
    }

    // Adds a tag, if there is room, and answers its number.
    fn add(&mut self, name: &str, attributes: Vec<Attribute>) -> Result<Option<u32>, AllocError>
        ensures grown { IsGrown self.old self.new }
        ensures within { IfOk result (λ o. IfSome o (λ i. i < length self.new)) }
        ensures is { IfOk result (λ o. IfSome o (λ i. tag_in self.new i ≡ (name.now, map pair attributes.items))) }
    {
        let n = self.tags.len();
        if n > 4_000_000_000 {
            return Ok(None);
        }
        let name = String::from_str(self.alloc, name)?;
        self.tags.push(Tag { name, attributes })?;
        Ok(Some(n as u32))
    }

    // The number of a tag with this name and without attributes, if one is remembered.
    fn known(&self, name: &str) -> Option<u32>
        ensures within { IfSome result (λ i. i < length self.now) }
        ensures is { IfSome result (λ i. tag_in self.now i ≡ (name.now, [])) }
    {
        let i = self.remembered[place_of(name)];
        if i as usize >= self.tags.len() {
            return None;
        }
        let tag = &self.tags[i as usize];
        if !tag.attributes.is_empty() {
            return None;
        }
        if tag.name.as_str() == name {
            Some(i)
        } else {
            None
        }
    }
}

// Where a name is remembered: names of one place push each other out.
fn place_of(name: &str) -> usize
    ensures { result < 256 }
{
    let bytes = name.as_bytes();
    let n = bytes.len();
    if n < 2 {
        return match bytes.first() {
            Some(b) => *b as usize,
            None => 0,
        };
    }
    (bytes[0] as usize + 3 * bytes[1] as usize + 5 * bytes[n - 1] as usize + 7 * (n % 256)) % PLACES
}
