// The arguments of a call, as the vectors of a run hold them.
use crate::item::Item;

/// Arguments that stand in a row, one for each parameter.
#[derive(Clone, Copy)]
pub(crate) struct Arguments<'a> {
    /// The first argument begins at `first`, and each other one where the one before it ends.
    pub(crate) items: &'a [Item],
    pub(crate) first: usize,
    /// Where each argument ends in `items`.
    pub(crate) ends: &'a [usize],
}
