//! Lists, sets and nodes as their callers meet them: they are filled, joined, changed and released, and what nodes stand in is
//! told.
//!
//! Tests alone, each over what is worked out by hand: of `region_alloc`, `tag_list`, `number_sets`, `c_tree`, `written_units`
//! and `node_surroundings`, which have none of their own, so that they are proved once. What a contract there says needs no
//! row here; these ask whether the contracts say what was meant, and what no contract speaks of: how deep a drop goes, and
//! that an answer comes where memory is ample.
#![tactic(auto)]

#[cfg(test)]
mod regions;
#[cfg(test)]
mod sets;
#[cfg(test)]
mod surroundings;
#[cfg(test)]
mod tag_lists;
#[cfg(test)]
mod units;
#[cfg(test)]
mod written;
