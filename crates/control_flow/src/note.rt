// What is said of a function's count of contexts: before its paths are walked, and by the walk.

/// The counts with which a function is entered, and with which it is to be left.
#[derive(Clone, Copy, Debug, PartialEq, Eq)]
pub struct ContextNote {
    pub enters: i64,
    pub leaves: i64,
}

/// What holds of all paths of a flow. Each number of a token is that of the step at which it stands.
#[derive(Clone, Copy)]
pub enum ContextAnswer {
    /// No path breaks a rule.
    Balanced,
    /// Two paths reach this point with different counts.
    Different(u32),
    /// A path comes here with too low a count, or leaves one below 0.
    Below(u32),
    /// A path leaves here with this count, which is another than it should be.
    WrongExit(u32, i64),
}
