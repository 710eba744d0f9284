//! The layout of structures and unions (C11 6.7.2.1): where members lie, sizes and alignments; and the sizes of types.
//!
//! Definitions over bodies whose members are known by the sizes and alignments of their types, and over types by the
//! layouts of aggregates, without memory or ids. [`layouts`] has the laws that hold of them. Start reading at
//! `specs/Layouts.antt`.
#![tactic(auto)]

mod layouts;

pub use layouts::{
    arrays_are_counted, compared_examples, layouts_are_sound, sizes_are_whole, worked_examples,
};
