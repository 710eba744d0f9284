// What the expansion of a unit may use up. Nothing is spent here.

/// What is left of the limits of a unit, and the number that `__COUNTER__` gives next.
#[derive(Clone, Copy, Debug, PartialEq, Eq)]
pub struct Budget {
    /// How many names may still be replaced.
    pub replacements: u32,
    /// How many tokens may still be made.
    pub tokens: u32,
    pub counter: u32,
}
