//! The texts of types, warnings and errors.
//!
//! Failures of rules in, the bytes of their warnings out, exactly as `meaning_warnings` defines them. No rule is judged
//! here. Start reading at [`print_all`].
#![tactic(auto)]

mod errors;
mod numbers;
mod pieces;
mod places;
mod print;
mod show;
mod types;
mod warnings;

pub use errors::error_text;
pub use print::print_all;
pub use show::Show;
pub use types::type_text;
pub use warnings::warning_text;
