//! The frontier of Dijkstra's algorithm: entries that are still to be gone on from, the nearest first.

ghost use Rattle.std.specs.Prelude.{◌≡◌, ◌∷◌, [], IfNone, IfSome, OnOk};
ghost use Rattle.std.specs.List.Sorted.{IsPermutation};

use std::alloc::{AllocError, Global};
use std::cmp::Reverse;
use std::collections::BinaryHeap;
use std::marker::Model;

/// Cells whose entries are still to be gone on from, each with the length of its entry. The least length comes first, so
/// that few of them come again.
#[derive(Drop)]
pub(crate) struct Frontier {
    heap: BinaryHeap<Reverse<(u64, u32)>>,
}

impl Model for Frontier {
    ghost use Rattle.std.specs.Prelude.{List, ℕ, map};
    ghost use Rattle.std.specs.BinaryHeap.{heap_items};

    ghost Value = { List (ℕ × ℕ) };

    ghost view = { λ p. map (λ x. x.0) (heap_items p.heap) };
}

impl Frontier {
    /// None.
    pub(crate) fn new(alloc: Global) -> Self
        ensures { result ≡ [] }
    {
        Frontier {
            heap: BinaryHeap::new(alloc),
        }
    }

    /// Adds a cell with the length of its entry.
    pub(crate) fn push(&mut self, length: u64, cell: u32) -> Result<(), AllocError>
        ensures { OnOk result (IsPermutation ((length, cell) ∷ self.old) self.new) }
    {
        self.heap.push(Reverse((length, cell)))?;
        Ok(())
    }

    /// Takes one of them.
    pub(crate) fn pop(&mut self) -> Option<(u64, u32)>
        ensures some { IfSome result (λ x. IsPermutation self.old (x ∷ self.new)) }
        ensures none { IfNone result (self.old ≡ []) }
        ensures same { IfNone result (self.new ≡ self.old) }
    {
        let Reverse(next) = self.heap.pop()?;
        Some(next)
    }
}
