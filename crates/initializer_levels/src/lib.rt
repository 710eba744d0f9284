//! The walk over the items of an initializer by levels: objects and parts that are filled part by part (C11 6.7.9 p17 to p20).
//!
//! What an initializer comes to is said in `meaning_initializers`, part by part. Here stands how a walk comes to the same without a
//! call in a call: it keeps the levels in which the part lies that is filled next. How leaves are converted, and what is constant,
//! isn't known here. Start reading at `specs/Turns.antt`.
#![tactic(auto)]

mod designate;
mod fill;
mod going;
mod items;
mod laws;
mod level;
mod listing;
mod met;
mod next;
mod parts;
mod paths;
mod plan;
mod reading;
mod steps;
mod takes;
mod turn;
mod walk;
mod way;

pub use designate::go_by_designators;
pub use fill::fill_part;
pub use going::{Arrived, Going};
pub use items::{ItemList, NextItem, items_at};
pub use laws::{initializers_are_of_parts, levels_stay, walks_come_to_plans};
pub use level::Level;
pub use listing::push_met;
pub use met::{Finding, Met, Placed};
pub use next::next_part;
pub use parts::{Part, PartType, Parts, parts_of};
pub use paths::{PathId, PathStep, Paths, path_of_part};
pub use plan::{Plan, walk_items};
pub use reading::{elements_of, is_braced, is_string_for, string_in, takes_whole};
pub use steps::{Index, Step, step_to_element, step_to_member};
pub use takes::{are_characters, is_value};
pub use turn::{Turn, take_turn};
pub use walk::{Turned, Walk, descend, leave};
pub use way::{Way, way_to};
