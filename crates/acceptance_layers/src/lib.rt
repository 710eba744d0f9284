//! Calls of single layers as the layer above makes them: the choice of a row of the grammar, what the rules say of operands, and
//! what is kept of names.
//!
//! Tests alone, each a short function over what is worked out by hand from the rules. What a contract below says needs no
//! row here; these ask whether the contracts say what was meant. What a tool of `workbench` shows is an archive of `cases`,
//! and all pairs of types and of operands are facts of `meaning_pairs`: here each public call stands once on its happy path,
//! since a crate without tests of its own is proved once. The top call and what grows below it are tried in `acceptance`.
#![tactic(auto)]

#[cfg(test)]
mod grammar;
#[cfg(test)]
mod made_types;
#[cfg(test)]
mod names;
#[cfg(test)]
mod operands;
