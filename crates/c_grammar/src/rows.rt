// The rows of the grammar, one static for each symbol. Which row is taken isn't known here.
pub(crate) mod binary;
pub(crate) mod declarations;
pub(crate) mod declarators;
pub(crate) mod expressions;
pub(crate) mod initializers;
pub(crate) mod members;
pub(crate) mod operands;
pub(crate) mod specifiers;
pub(crate) mod statements;
pub(crate) mod types;
