//! The grammar of C as data (C11 6.5 to 6.9, with what the kernel's code has besides): classes of tokens, symbols,
//! productions, and the looks by which the next two tokens choose a row.
//!
//! Definitions over the names of the `vocabulary`, without memory or ids. Nothing here knows what is read with them: what a
//! list of tokens derives, and what actions do, is said above. [`table`] has the facts that hold of every row. Start
//! reading at `specs/Productions.antt` and `specs/Looks.antt`.
#![tactic(auto)]

mod examples;
mod table;

pub use examples::worked_examples;
pub use table::{beginnings_are_those_of_rows, each_row_has_its_look, rows_fit, symbols_serve};
