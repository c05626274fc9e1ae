//! Laws of the steps of the drivable area: what a step's list is made of, what it holds, how far it reaches, and how many
//! sets it has.
#![tactic(auto)]

ghost use Rattle.area_laws.specs.Laws.{CellsMakeLists, GroupsFill, MotionsStayHeld, SetsHaveRoom, SetsStayInBox, TablesFill};

use carve::Occupied;

/// The children of all sets of a step, added to a table of cells one after another, fill the table.
pub fn tables_fill()
    ensures { TablesFill }
{}

/// So do the children of sets that have one polygon along x, added together: the numbers of its parts, column by column, with
/// the greatest numbers of all their polygons along y in each row.
pub fn groups_fill()
    ensures { GroupsFill }
{}

/// The sets of all cells of a filled table, cut to the free runs of their rows, are the list of the next step: by column, by
/// row, by run. It holds each next state of a state that the sets before hold, or the state's place is removed.
pub fn cells_make_lists<O: Occupied>(o: &O)
    ensures { CellsMakeLists (O.count o.now) (O.hits o.now) }
{}

/// By induction over the steps: each motion of the ego is held by a set of a step's list, or was at a piece by then.
pub fn motions_stay_held<O: Occupied>(o: &O)
    ensures { MotionsStayHeld (O.count o.now) (O.hits o.now) }
{}

/// Each set of a step's list lies in the outer box of the step, and is no faster than the ego may be.
pub fn sets_stay_in_box<O: Occupied>(o: &O)
    ensures { SetsStayInBox (O.count o.now) (O.hits o.now) }
{}

/// A step has at most as many sets as row boxes, where no row has more free runs than columns and pieces that meet it.
pub fn sets_have_room<O: Occupied>(o: &O)
    ensures { SetsHaveRoom (O.count o.now) (O.hits o.now) (O.range o.now) }
{}
