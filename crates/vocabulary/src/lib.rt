//! The lists of names on which the definitions and the code agree: kinds of tokens, of nodes and of
//! integers, roles, what the grammar is made of (classes of tokens, symbols, actions), name spaces, operators, rules
//! and their classes, errors, limits; and the tables of words.
//!
//! Definitions cite these types as they are declared here, so that each list stands once. Whatever has
//! an id, a place in memory or a stack stands above.
#![tactic(auto)]

mod action;
mod class;
mod error_kind;
mod int_kind;
mod limit;
mod node_kind;
mod operator;
mod production_item;
mod role;
mod rule;
mod scope;
mod symbol;
mod tables;
mod token_class;
mod token_kind;
mod words;

pub use action::Action;
pub use class::Class;
pub use error_kind::ErrorKind;
pub use int_kind::IntKind;
pub use limit::LimitKind;
pub use node_kind::NodeKind;
pub use operator::Operator;
pub use production_item::ProductionItem;
pub use role::{Role, tags_keep_roles};
pub use rule::RuleCode;
pub use scope::{Bound, NameSpace};
pub use symbol::Symbol;
pub use tables::rules_are_numbered;
pub use token_class::TokenClass;
pub use token_kind::TokenKind;
pub use words::{KEYWORDS, PREDEFINED_MACROS, RESERVED_WORDS, words_are_spelled};
