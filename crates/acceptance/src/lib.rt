//! The top call as its users meet it: words and files in, texts and an exit out; and what grows below it.
//!
//! Tests alone, each a table whose rows are worked out by hand from the rules. What a contract below
//! says needs no row here; these rows ask whether the contracts say what was meant. A command and its
//! answer is an archive of `cases`: here stands what no archive can hold. Single layers are called in
//! `acceptance_layers`.
#![tactic(auto)]

#[cfg(test)]
mod bytes;
#[cfg(test)]
mod faults;
#[cfg(test)]
mod growth;
#[cfg(test)]
mod large;
#[cfg(test)]
mod model;
#[cfg(test)]
mod run;
#[cfg(test)]
mod untold;
