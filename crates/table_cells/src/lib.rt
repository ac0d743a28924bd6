//! The cells of a table along some of its vertices, and what is true of them: no code runs here.
//!
//! A cell is a list with a number of a level for each vertex. `specs/Cells.antt` says which lists are cells of a table, and lists those
//! that differ from one at most in some vertices.
#![tactic(auto)]

ghost use Rattle.table_cells.specs.Laws.{FirstIsCell, ChangedIsCell, CellsByFirst, EachAlongIsCell};

/// The laws of cells.
pub fn laws()
    ensures first { FirstIsCell }
    ensures changed { ChangedIsCell }

    // The cells along some vertices are those for each level of the first vertex in turn, and each is a cell.
    ensures by_first { CellsByFirst }
    ensures each { EachAlongIsCell }
{}
