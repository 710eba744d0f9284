// A node that control meets.
use crate::kind::ControlKind;

/// A node that control meets, in a list of such cells.
#[derive(Drop)]
pub struct Cell {
    pub kind: ControlKind,
    /// The index of the token at which it stands.
    pub token: u32,
    /// The numbers of its parts, in the order in which they are passed.
    pub parts: Vec<u32>,
}
