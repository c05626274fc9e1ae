//! Lists of numbers.

ghost use Rattle.std.specs.Prelude.{◌≡◌, ◌↔◌, ◌<◌, ◌==◌, ℕ, [], length, slice_get, Some, IfOk};
ghost use Rattle.std.specs.List.{list_any};
ghost use Rattle.spot_terms.specs.Lists.{Includes};

use std::alloc::{AllocError, Global};
use std::marker::Model;

/// A list of numbers of lanelets or of cells.
#[derive(Drop)]
pub(crate) struct Numbers {
    items: Vec<u32>,
}

impl Model for Numbers {
    ghost use Rattle.std.specs.Prelude.{List, ℕ};

    ghost Value = { List ℕ };

    ghost view = { λ n. n.items.items };
}

impl Numbers {
    ghost use Rattle.std.specs.Prelude.{◌++◌, ◌∷◌, ◌-◌, ◌↔◌, length, slice_get, Some, IsTrue, OnOk};
    ghost use Rattle.lanelets.specs.Listing.{IsWith};

    /// The empty list.
    pub(crate) fn new(alloc: Global) -> Self
        ensures { result ≡ [] }
    {
        Numbers {
            items: Vec::new(alloc),
        }
    }

    /// The numbers, in order.
    pub(crate) fn list(&self) -> &[u32]
        ensures { result.now ≡ self.now }
    {
        &self.items
    }

    /// Adds a number at the end.
    pub(crate) fn push(&mut self, n: u32) -> Result<(), AllocError>
        ensures { OnOk result (self.new ≡ self.old ++ n ∷ []) }
    {
        self.items.push(n)?;
        Ok(())
    }

    // Whether this is the last number.
    fn ends_with(&self, n: u32) -> bool
        ensures { IsTrue result ↔ (slice_get self.now (length self.now - 1) ≡ Some n) }
    {
        match self.items.last() {
            Some(last) => *last == n,
            None => false,
        }
    }

    /// Adds a number at the end, unless it is the last.
    pub(crate) fn push_once(&mut self, n: u32) -> Result<(), AllocError>
        ensures { OnOk result (IsWith self.old n self.new) }
    {
        if self.ends_with(n) {
            return Ok(());
        }
        self.push(n)
    }

    /// Adds the numbers of another list at the end.
    pub(crate) fn extend(&mut self, more: &[u32]) -> Result<(), AllocError>
        ensures { OnOk result (self.new ≡ self.old ++ more.now) }
    {
        for n in more {
            self.push(*n)?;
        }
        Ok(())
    }
}

/// The list at a place.
pub(crate) fn list_at(lists: &[Numbers], k: u32) -> &[u32]
    requires { k < length lists.now }
    ensures { slice_get lists.now k ≡ Some result.now }
{
    lists[k as usize].list()
}

/// The list of the number, or the empty list.
pub(crate) fn one_or_none(alloc: Global, n: Option<u32>) -> Result<Numbers, AllocError>
    ensures { IfOk result (λ list. (x : ℕ) → (Includes list x ↔ (n ≡ Some x))) }
{
    let mut list = Numbers::new(alloc);
    if let Some(n) = n {
        list.push(n)?;
    }
    Ok(list)
}

/// Whether the number is in the list.
pub(crate) fn has_number(list: &[u32], n: u32) -> bool
    ensures { result ≡ list_any (λ i. i == n) list.now }
{
    list.iter().any(|i| *i == n)
}
