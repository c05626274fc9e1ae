//! What is recorded of dynamic obstacles: their states.

ghost use Rattle.std.specs.Prelude.{◌<◌, length, option_map, IfOk};
ghost use Rattle.scenario.specs.Found.{FindsState, FindsTrack, FindsTracks};

use crate::table::{DYNAMICS, LATER_STATES};
use crate::values::{find_position, find_time};
use crate::walk::walk;
use spot_terms::StateList;
use spot_tree::Tree;
use std::alloc::{AllocError, Global};

// What is recorded of a state: its step, and x and y, exactly where it has a time and a position.
fn find_state(tree: &Tree, e: u32) -> Option<(u32, i64, i64)>
    requires { e < length tree.now }
    ensures { FindsState tree.now e result }
{
    let position = find_position(tree, e)?;
    let time = find_time(tree, e)?;
    Some((time, position.x, position.y))
}

// What is recorded of a dynamic obstacle: its initial state, and the states of its first trajectory. There is none only where
// something that is read of the obstacle isn't there.
fn track_of(alloc: Global, tree: &Tree, e: u32) -> Result<Option<StateList>, AllocError>
    requires { e < length tree.now }
    ensures { IfOk result (λ found. FindsTrack tree.now e found) }
{
    let Some(start) = tree.child(e, "initialState") else {
        return Ok(None);
    };
    let Some(first) = find_state(tree, start) else {
        return Ok(None);
    };
    let states = walk(alloc, tree, LATER_STATES, &[e])?;
    let mut recorded = vec![in alloc; first]?;
    for state in &states {
        let Some(next) = find_state(tree, *state) else {
            return Ok(None);
        };
        recorded.push(next)?;
    }
    Ok(Some(StateList::from_vec(recorded)))
}

/// What is recorded of each dynamic obstacle, in document order. There is none only where the tree isn't accepted.
pub(crate) fn tracks_of(alloc: Global, tree: &Tree) -> Result<Option<Vec<StateList>>, AllocError>
    ensures { IfOk result (λ found. FindsTracks tree.now (option_map (λ tracks. tracks.items) found)) }
{
    prove!(0 < tree.len());
    let elements = walk(alloc, tree, DYNAMICS, &[0])?;
    let mut tracks = Vec::new(alloc);
    for e in &elements {
        let Some(track) = track_of(alloc, tree, *e)? else {
            return Ok(None);
        };
        tracks.push(track)?;
    }
    Ok(Some(tracks))
}
