// A row of the grammar. Before which tokens it is taken isn't known here.
use vocabulary::{ProductionItem, Symbol};

/// A row of a symbol: what the symbol derives is what its items derive, one behind the other.
#[derive(Clone, Copy, Debug, PartialEq, Eq)]
pub struct Production {
    pub symbol: Symbol,
    pub items: &'static [ProductionItem],
}
