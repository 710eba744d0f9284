//! Macros by their names, and the expansion of tokens (C11 6.10.3).
//!
//! Definitions come in, each with its parameters and its body as tokens, and are found again by the ids
//! of their names. Tokens come in, and leave with their macros replaced, as much as a budget allows. No
//! directive is read here. What a macro is, when two definitions agree and what tokens become is said in
//! `meaning_macros`; how the values of this crate are seen there in `specs/Seen.antt`. Start reading at
//! [`MacroTable::define`] and at [`expand`].
#![tactic(auto)]

mod agreement;
mod argument;
mod arguments;
mod body;
mod budget;
mod chains;
mod definition;
mod ending;
mod entry;
mod expand_fault;
mod expansion;
mod fault;
mod front;
mod item;
mod laid;
mod laws;
mod lay;
mod opening;
mod operand;
mod parameters;
mod pasting;
mod pieces;
mod placing;
mod predefined;
mod purpose;
mod reading;
mod run;
mod step;
mod stops;
mod stringizing;
mod substitution;
mod table;
mod uses;

pub use budget::Budget;
pub use definition::Macro;
pub use expand_fault::ExpandFault;
pub use expansion::expand;
pub use fault::DefineFault;
pub use laws::{ids_say_what_spellings_say, known_tables_stay_known};
pub use table::MacroTable;
