//! Files, tokens, literals and attributes as their callers meet them: what is loaded and put, and what short texts are read as.
//!
//! Tests alone, each over what is worked out by hand: of `sparse_outside`, `c_tokens`, `c_literals` and `c_attrs`, which have
//! none of their own, so that they are proved once. What a contract there says needs no row here; these ask whether the
//! contracts say what was meant, and what no contract speaks of: what the system's files and sinks do, and that an answer
//! comes where memory is ample.
#![tactic(auto)]

#[cfg(test)]
mod attributes;
#[cfg(test)]
mod files;
#[cfg(test)]
mod literals;
#[cfg(test)]
mod punctuators;
#[cfg(test)]
mod tokens;
