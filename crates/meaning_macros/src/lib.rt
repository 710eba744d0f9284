//! Macros, and what a macro call becomes (C11 6.10.3).
//!
//! Definitions over the tokens of `meaning_text`, without memory or ids. Start reading at
//! `specs/Macros.antt`, `specs/Bodies.antt` and `specs/Expansion.antt`.
#![tactic(auto)]

mod expansion;

pub use expansion::{
    agreement_is_an_equivalence, budgets_are_used_up, expansions_are_their_cases,
    plain_tokens_stay, tables_are_what_they_say, tokens_join_as_spelled, worked_examples,
};
