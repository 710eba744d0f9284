//! The names that are visible, by their ids: scopes are opened, bound in, left, and opened again.
//!
//! A list of scopes is seen as the list of its entries and marks, the innermost first, by
//! `specs/Seen.antt`. Spellings aren't known here, nor what it was that declared a name. Start reading at
//! [`Scopes`].
#![tactic(auto)]

mod redeclaration;
mod restored;
mod scopes;
mod slot;

pub use redeclaration::is_redeclared;
pub use region_alloc::Handle;
pub use scopes::Scopes;
pub use slot::Binding;
pub use vocabulary::{Bound, NameSpace, TokenClass};
