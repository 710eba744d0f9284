// Where something stands in the text of a file.

/// Where a token begins: the number of its file, and the line and the column of bytes, both from 1.
#[derive(Clone, Copy, Debug, PartialEq, Eq)]
pub struct Place {
    pub file: u32,
    pub line: u32,
    pub column: u32,
}
