// What a path passes.
use sparse_model::Seq;

/// A step of a path, with the index of the token at which it stands.
#[derive(Clone, Copy)]
pub enum Step {
    /// A point. The flag tells the moment before a loop's condition, and the leaving of a `return`, from
    /// all others; two points are one exactly where they are equal.
    Point(u32, bool),
    /// A context statement, and what it adds to the count.
    Add(u32, i64),
    /// A call, and the counts with which its function is entered and left.
    Call(u32, i64, i64),
    /// Control leaves the function.
    End(u32),
}

/// Steps in their order.
pub type StepList = Seq<Step>;
