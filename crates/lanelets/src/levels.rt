//! Numbers of cells, lowered along pairs until none becomes less.

ghost use Rattle.std.specs.Prelude.{◌≡◌, ◌<◌, ◌+◌, ℕ, List, [], length, true, false, OnOk, IfOk};
ghost use Rattle.std.specs.List.{AllByRecursion};
ghost use Rattle.lanelets.specs.Levels.{AreLevel, IsMadeOf, IsUnderWay, Lowers, size_of};
ghost use Rattle.lanelets.specs.Listing.{AreBelow};

use crate::numbers::{Numbers, list_at};
use std::alloc::{AllocError, Global};

// Lowers the numbers of the cells of a row to `n`, where that is less, and notes the cells.
fn lower_row(
    numbers: &mut [u32],
    noted: &mut Vec<u32>,
    row: &[u32],
    n: u32,
) -> Result<(), AllocError>
    requires { AreBelow (length numbers.old) row.now }
    ensures { OnOk result (Lowers row.now n numbers.old noted.old.items numbers.new noted.new.items) }
{
    for d in row {
        if n < numbers[*d as usize] {
            numbers[*d as usize] = n;
            noted.push(*d)?;
        }
    }
    Ok(())
}

// Goes on from one of the noted cells. Whether there was one.
fn lower_next(
    numbers: &mut [u32],
    noted: &mut Vec<u32>,
    pairs: &[Numbers],
) -> Result<bool, AllocError>
    requires many { length pairs.now ≡ length numbers.old }
    requires pairs { AllByRecursion (AreBelow (length numbers.old)) pairs.now }
    requires noted { AreBelow (length numbers.old) noted.old.items }
    ensures noted { OnOk result (AreBelow (length numbers.old) noted.new.items) }
    ensures less { IfOk result (λ more. more ≡ true → size_of numbers.new noted.new.items < size_of numbers.old noted.old.items) }
    ensures none { IfOk result (λ more. more ≡ false → noted.new.items ≡ []) }
    ensures under_way { OnOk result ((first : List ℕ) (c : ℕ) → IsUnderWay pairs.now first c numbers.old noted.old.items → IsUnderWay pairs.now first c numbers.new noted.new.items) }
{
    let Some(c) = noted.pop() else {
        return Ok(false);
    };
    let n = numbers[c as usize];
    lower_row(numbers, noted, list_at(pairs, c), n)?;
    Ok(true)
}

// Goes on from a cell, until no cell is noted.
fn lower_from(
    numbers: &mut [u32],
    noted: &mut Vec<u32>,
    pairs: &[Numbers],
    c: u32,
) -> Result<(), AllocError>
    requires many { length pairs.now ≡ length numbers.old }
    requires pairs { AllByRecursion (AreBelow (length numbers.old)) pairs.now }
    requires within { c < length numbers.old }
    requires noted { noted.old.items ≡ [] }
    ensures noted { OnOk result (noted.new.items ≡ []) }
    ensures under_way { OnOk result ((first : List ℕ) → IsUnderWay pairs.now first c numbers.old noted.old.items → IsUnderWay pairs.now first (c + 1) numbers.new noted.new.items) }
{
    noted.push(c)?;
    while lower_next(numbers, noted, pairs)? {}
    Ok(())
}

/// Lowers the numbers of `count` cells along the pairs until none becomes less. A cell is gone on from only where its
/// number became less.
pub(crate) fn settle(
    alloc: Global,
    numbers: &mut [u32],
    pairs: &[Numbers],
    count: u32,
) -> Result<(), AllocError>
    requires count { length numbers.old ≡ count }
    requires many { length pairs.now ≡ count }
    requires pairs { AllByRecursion (AreBelow count) pairs.now }
    ensures level { OnOk result (AreLevel pairs.now numbers.new) }
    ensures made { OnOk result (IsMadeOf pairs.now numbers.old numbers.new) }
{
    let mut noted = Vec::new(alloc);
    for c in 0..count {
        lower_from(numbers, &mut noted, pairs, c)?;
    }
    Ok(())
}
