// What the law of an operator says.

/// What is asked of a restricted operand.
#[derive(Clone, Copy)]
pub enum Demand {
    /// The other one is of the same restricted type, or the constant 0.
    OneType,
    /// There is none.
    PlainOnly,
    /// There is none, and what is given is stored.
    PlainStored,
    Anything,
}

/// Whose restricted type the result has, if any has one.
#[derive(Clone, Copy)]
pub enum ResultIdentity {
    /// Nobody's: the base counts, or an int or a place is given.
    NoIdentity,
    /// The left operand's, or else the right one's.
    OneIdentity,
    /// The only operand's.
    OwnIdentity,
    /// That of the place on the left, in which the result is stored.
    StoredIdentity,
    /// The last operand's.
    LastIdentity,
}

/// When the result is fouled.
#[derive(Clone, Copy)]
pub enum FoulMark {
    NeverFouled,
    /// Where both operands are.
    BothFouled,
    /// Where one is, and neither is a pointer.
    EitherFouled,
    /// Where the last one is.
    LastFouled,
    /// Where the operand is, or bits were set that its restricted type doesn't have.
    ComplementFouled,
}

/// What an operator asks of restricted operands, and what it gives.
#[derive(Clone, Copy)]
pub struct OperatorLaw {
    pub demand: Demand,
    /// Whether a fouled operand is compared or tested.
    pub tests: bool,
    pub gives: ResultIdentity,
    pub foul: FoulMark,
}
