// What an expansion has on its way: vectors that all levels of nesting share, and positions in them.
use crate::item::Item;
use crate::laid::Laid;
use number_sets::{NumberSets, SetId};

/// A call of which an argument is being expanded. What it holds stands in the run's vectors, from these
/// positions on.
#[derive(Clone, Copy)]
pub(crate) struct Call {
    pub(crate) name: Item,
    /// What its body will hide.
    pub(crate) hides: SetId,
    /// Its variable argument isn't there.
    pub(crate) absent: bool,
    /// The floor of the list that the call is part of.
    pub(crate) outer: usize,
    /// Where in `stops` that of its next argument is noted.
    pub(crate) next_stop: usize,
    pub(crate) first_stop: usize,
    pub(crate) first_put: usize,
    pub(crate) first_put_end: usize,
    pub(crate) first_raw: usize,
    pub(crate) first_raw_end: usize,
}

/// An expansion that has been begun. Nothing in `work` below its top is ever changed, so a position
/// stays true as long as a call waits.
#[derive(Drop)]
pub(crate) struct Run {
    /// What is left to read, the last token first. The later arguments of waiting calls, and what follows
    /// these, stand below the floor.
    pub(crate) work: Vec<Item>,
    pub(crate) floor: usize,
    /// For each `(` of `work` whose `)` was met how far is read down to that, else 0. Where `work` is longer,
    /// none was met.
    pub(crate) closings: Vec<usize>,
    /// What is put: before the outermost call, then for each waiting call its ready arguments and what is
    /// put of its current one.
    pub(crate) put: Vec<Item>,
    /// Where the ready arguments of waiting calls end.
    pub(crate) put_ends: Vec<usize>,
    /// The arguments of waiting calls as they were written, where the body asks for them so.
    pub(crate) raw: Vec<Item>,
    /// Where those end that are ready.
    pub(crate) raw_ends: Vec<usize>,
    /// For each waiting call where its arguments end: what is read down to there.
    pub(crate) stops: Vec<usize>,
    /// The waiting calls, the outermost first.
    pub(crate) calls: Vec<Call>,
    pub(crate) sets: NumberSets,
    /// A body before it goes to `work`.
    pub(crate) laid: Laid,
}
