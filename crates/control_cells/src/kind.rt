// What a node of a function is to control.
ghost use Rattle.std.specs.Prelude.{◌≡◌, ℕ, List};
ghost use Rattle.sparse_model.specs.declared.ids.NameId.{NameId as Name};
ghost use Rattle.meaning_control.specs.Kinds as meaning;
ghost use Rattle.meaning_control.specs.States.{ends_cases};
ghost use Rattle.control_cells.specs.Seen.{kind_seen};

use control_flow::ContextNote;
use sparse_model::NameId;

/// The ways in which a value is left.
#[derive(Clone, Copy, Debug, PartialEq, Eq)]
pub enum Outcomes {
    /// It never is.
    Never,
    One(bool),
    Both,
}

/// What a node of a function is to control. The parts of a node stand in the order in which they are passed.
#[derive(Clone, Copy, Debug, PartialEq, Eq)]
pub enum ControlKind {
    /// An expression whose value is tested, and which isn't one of those below.
    Value(Outcomes),
    /// A call of a function that has contexts, or never returns.
    Calling(Option<ContextNote>, Outcomes),
    /// Parentheses, a comma, a declaration, and each operator whose value isn't tested.
    Sequence,
    /// The items of a function, or of a statement expression.
    Body,
    /// `!`.
    Not,
    /// `&&`.
    And,
    /// `||`.
    Or,
    /// `?:`.
    Conditional,
    /// `__builtin_expect` that is tested: its value, what is expected where that is true, and the same where it is false.
    Expect,
    /// An expression and a semicolon (C11 6.8.3).
    Expression,
    /// A compound statement (6.8.2).
    Block,
    /// `if` (6.8.4.1).
    If,
    /// `switch` (6.8.4.2), with the value of its condition, where that is constant.
    Switch(Option<i128>),
    /// `while` (6.8.5.1).
    While,
    /// `do` (6.8.5.2), with the token of its `while`.
    Do(u32),
    /// `for` (6.8.5.3), and whether it has a condition.
    For(bool),
    /// A label (6.8.1).
    Label(NameId),
    /// `case`, with its number in the type of its switch.
    Case(i128),
    /// `default`.
    Default,
    /// `goto` (6.8.6.1).
    Goto(NameId),
    /// `break` (6.8.6.3).
    Break,
    /// `continue` (6.8.6.2).
    Continue,
    /// `return` (6.8.6.4).
    Return,
    /// A context statement, and what it adds.
    Context(i64),
    /// A statement of attributes.
    Attributes,
}

/// Whether a node of this kind is a statement (C11 6.8).
pub fn is_statement(kind: ControlKind) -> bool
    ensures { (names : Name → List ℕ) (token : ℕ) → result ≡ meaning.is_statement (kind_seen names token kind) }
{
    match kind {
        ControlKind::Value(_) => false,
        ControlKind::Calling(_, _) => false,
        ControlKind::Sequence => false,
        ControlKind::Body => false,
        ControlKind::Not => false,
        ControlKind::And => false,
        ControlKind::Or => false,
        ControlKind::Conditional => false,
        ControlKind::Expect => false,
        _ => true,
    }
}

/// Whether it is the items of a function, or of a statement expression.
pub fn is_body(kind: ControlKind) -> bool
    ensures { (names : Name → List ℕ) (token : ℕ) → result ≡ meaning.is_body (kind_seen names token kind) }
{
    match kind {
        ControlKind::Body => true,
        _ => false,
    }
}

/// Whether a `case` below a node of this kind is no label of a switch around it (6.8.4.2 p4).
pub fn ends_cases(kind: ControlKind) -> bool
    ensures { (names : Name → List ℕ) (token : ℕ) → result ≡ ends_cases (kind_seen names token kind) }
{
    match kind {
        ControlKind::Switch(_) => true,
        ControlKind::Body => true,
        _ => false,
    }
}

/// Whether the part at this place is the body of a loop, which `continue` leaves (6.8.6.2 p2).
pub fn is_loop_body(kind: ControlKind, place: usize) -> bool
    ensures { (names : Name → List ℕ) (token : ℕ) → result ≡ meaning.is_loop_body (kind_seen names token kind) place }
{
    match kind {
        ControlKind::While => place == 1,
        ControlKind::Do(_) => place == 0,
        ControlKind::For(_) => place == 3,
        _ => false,
    }
}

/// Whether the part at this place is one that `break` leaves: the body of a loop or of a `switch` (6.8.6.3 p2).
pub fn is_broken(kind: ControlKind, place: usize) -> bool
    ensures { (names : Name → List ℕ) (token : ℕ) → result ≡ meaning.is_broken (kind_seen names token kind) place }
{
    match kind {
        ControlKind::Switch(_) => place == 1,
        _ => is_loop_body(kind, place),
    }
}
