//! What is kept of declarations of a name, so that declaring it again costs one look-up, however often it was declared.
//!
//! Of a name with linkage all declarations are seen, in order, though a handful of them are kept; and so are all
//! typedefs, though the first of each scope and name is kept. Which types agree is said in `meaning_typing`. Start
//! reading at [`LinkedNames`]; [`LinkedContexts`] compares contexts besides.
#![tactic(auto)]

mod carried;
mod carriers;
mod declaration;
mod declarations;
mod forms;
mod group;
mod linked_contexts;
mod linked_names;
mod placed;
mod sums;
mod trace;
mod typedef_names;
mod witnesses;

pub use declaration::{Declared, Linked, Typedef};
pub use linked_contexts::LinkedContexts;
pub use linked_names::LinkedNames;
pub use sums::ContextSums;
pub use typedef_names::TypedefNames;
