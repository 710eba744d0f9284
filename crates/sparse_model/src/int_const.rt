// What a constant is once it is read. Its spelling isn't known here.
use vocabulary::IntKind;

/// An integer constant: its type, and its value modulo 2^64.
#[derive(Clone, Copy, Debug, PartialEq, Eq)]
pub struct IntConst {
    pub kind: IntKind,
    pub bits: u64,
}
