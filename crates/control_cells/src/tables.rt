// What is known of the cells of a body, and what is proved of it.
ghost use Rattle.control_cells.specs.Tables.{TablesKeepEquations};

use crate::exits::Exits;
use crate::numbers::BlockNumbers;

/// What is known of the cells of a body, by their numbers.
#[derive(Drop)]
pub struct CellTables {
    pub numbers: Vec<BlockNumbers>,
    pub exits: Vec<Exits>,
    /// The labels of each body, and those of each `switch`.
    pub labels: Vec<Vec<u32>>,
    /// The labels to which each `goto` may go.
    pub jumps: Vec<Vec<u32>>,
}

/// The numbers and the exits of cells keep the equations that a flow's tables owe its cells.
pub fn tables_keep_equations()
    ensures { TablesKeepEquations }
{}
