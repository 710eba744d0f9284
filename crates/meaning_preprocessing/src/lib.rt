//! The preprocessed unit (C11 6.10): what options, a map of files and a path become.
//!
//! Definitions over the tokens of `meaning_text`, the macros of `meaning_macros` and the conditions of
//! `meaning_conditions`, without memory or ids. Start reading at `specs/Lines.antt`, `specs/Directives.antt`
//! and `specs/Unit.antt`.
#![tactic(auto)]

mod units;

pub use units::{
    definitions_are_well_formed, each_path_has_one_unit, lines_are_read_in_order,
    lines_behind_the_end_do_not_show, numbers_tell_paths, plain_files_stay,
    skipped_groups_do_not_show, worked_examples,
};
