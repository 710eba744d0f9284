//! Nodes that initialize objects (C11 6.5.2.5, 6.7.9): the initializer behind a declarator, and a compound literal.
//!
//! Definitions over the nodes of a unit: which object each initializes, and its row by what `meaning_initializers` says that the
//! initializer makes of it. `meaning_units` asks these rows. Start reading at `specs/Rows.antt`.
#![tactic(auto)]

mod initialized;

pub use initialized::{each_node_has_one_row, worked_declarations, worked_literals};
