//! The preprocessed unit: the files of a unit, part by part (C11 5.1.1.2 phases 3 and 4).
//!
//! The path of a file and the text of the options come in. Files are loaded by what the caller hands in, each
//! path once, and the tokens of the unit leave, behind directives and with macros replaced. Lines are read in
//! `c_directives`, conditions are judged in `c_conditions`, and macros are replaced in `c_macros`. What a unit is, is
//! said in `meaning_preprocessing`, and how the values of this crate are seen there in `specs/`. What a token is to the
//! grammar isn't known here. Start reading at [`preprocess`] and at `read_part` in `src/file.rt`.
#![tactic(auto)]

mod file;
mod first_state;
mod include_line;
mod judged;
mod kept;
mod loads;
mod main_file;
mod open_files;
mod opening;
mod pre_fault;
mod state;
mod tasks;
mod text;
mod unit;

pub use pre_fault::PreFault;
pub use unit::{UnitTokens, preprocess};
