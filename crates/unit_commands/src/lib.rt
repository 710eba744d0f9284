//! Commands for developers and for cases, each of which shows something of one unit: its tree, the types of its expressions, or the
//! flows of its functions.
//!
//! A file is preprocessed and parsed as the checker does it, and one that isn't parsed is told as the checker tells it. A tree has a
//! node a line, indented by its depth (`specs/TreeLines.antt`). Of each expression the type is written, with whether it is a place and
//! with its constant, or the constraint that it breaks, each judged by itself over what is known of the nodes before it, whatever the
//! others break (`specs/Types.antt`). Of each function of an accepted unit it is written which paths control has and with which counts
//! it is entered and left (`specs/FlowLines.antt`), in a line that the program `flows` reads. How a row is found or a flow is made isn't
//! known here. Start reading at [`Command`] and [`show`].
#![tactic(auto)]

mod answers;
mod command;
mod expression_lines;
mod functions;
mod lowered;
mod places;
mod reply;
mod source;
mod tree;
mod tree_lines;
mod types;
mod walk;
mod words;

pub use command::{Command, answer, show, written_of};
pub use lowered::lower_tokens;
pub use source::Source;
pub use tree::show_tokens;
pub use types::type_tokens;
