// The items of productions.
use crate::action::Action;
use crate::symbol::Symbol;
use crate::token_class::TokenClass;

/// A part of a production, or what is done between its parts.
///
/// An item that takes a token and keeps it leaves a word on the stack of values.
#[derive(Clone, Copy, Debug, PartialEq, Eq)]
pub enum ProductionItem {
    /// A token of this class, which is kept.
    Token(TokenClass),
    /// A token of this class.
    Passed(TokenClass),
    /// Any token but a parenthesis and the end.
    PassedAny,
    /// A name, whatever it is bound to, which is kept.
    Name,
    /// The name behind `goto`, which is kept; a `*` in its place is told as a computed `goto`.
    LabelName,
    /// A name or a keyword as the word of an attribute, which is kept.
    AttributeWord,
    /// The `:` behind the label of a `case`; a `...` in its place is told as a range.
    CaseColon,
    /// The `]` of a designator; a `...` in its place is told as a range.
    DesignatorEnd,
    /// What a symbol derives.
    Nonterminal(Symbol),
    /// What is done here with what was read.
    Do(Action),
}
