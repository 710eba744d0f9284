// What is told where nothing goes on: an item and the next class arrive, and a syntax error leaves, or one of the forms that
// are told by what was expected. At which token it is told isn't known here.
ghost use Rattle.std.specs.Prelude.{◌≡◌, ◌∷◌, if◌then◌else◌};
ghost use Rattle.meaning_grammar.specs.Classes.{is_among, is_same};
ghost use Rattle.meaning_grammar.specs.ClassLists.{type_qualifiers};
ghost use Rattle.meaning_derivation.specs.Taking.{begins_operand, ends_function, expected_fault, fault_of_class};
ghost use Rattle.parse_state.specs.Seen.{state_of};
ghost use Rattle.vocabulary.specs.declared.token_class.TokenClass.TheVariants as classes;
ghost use Rattle.vocabulary.specs.declared.error_kind.ErrorKind.TheVariants as errors;
ghost use Rattle.vocabulary.specs.declared.symbol.Symbol.TheVariants as symbols;
ghost use Rattle.vocabulary.specs.declared.production_item.ProductionItem.TheVariants as items;

use crate::items::is_same;
use c_grammar::choose;
use parse_state::ParseState;
use vocabulary::{ErrorKind, ProductionItem, Symbol, TokenClass};

// The symbol begins an operand: it has a row for `!`.
fn begins_operand(symbol: Symbol) -> bool
    ensures { result ≡ begins_operand symbol }
{
    choose(symbol, [TokenClass::Exclamation, TokenClass::End]).is_some()
}

// A qualifier or `static`, which some declare an array's size with.
fn qualifies(class: TokenClass) -> bool
    ensures { result ≡ is_among (classes.StaticKeyword ∷ type_qualifiers) class }
{
    matches!(
        class,
        TokenClass::StaticKeyword
            | TokenClass::ConstKeyword
            | TokenClass::VolatileKeyword
            | TokenClass::RestrictKeyword
    )
}

// This error where the class is the one that the form has, or a syntax error.
fn told_by(form: TokenClass, class: TokenClass, error: ErrorKind) -> ErrorKind
    ensures { result ≡ (if is_same form class then error else errors.SyntaxError) }
{
    if is_same(form, class) {
        error
    } else {
        ErrorKind::SyntaxError
    }
}

// What an array's size says before a terminal that it can't begin with.
fn size_fault(class: TokenClass) -> ErrorKind
    ensures { result ≡ expected_fault (items.Nonterminal symbols.ArraySize) class }
{
    if qualifies(class) {
        ErrorKind::QualifierInArrayBrackets
    } else {
        told_by(TokenClass::AndAnd, class, ErrorKind::ComputedGoto)
    }
}

// What a symbol says before a terminal that it has no row for.
fn symbol_fault(symbol: Symbol, class: TokenClass) -> ErrorKind
    ensures { result ≡ expected_fault (items.Nonterminal symbol) class }
{
    match symbol {
        Symbol::ArraySize => size_fault(class),
        _ => {
            if is_same(TokenClass::AndAnd, class) && begins_operand(symbol) {
                ErrorKind::ComputedGoto
            } else {
                ErrorKind::SyntaxError
            }
        }
    }
}

// What an item says before a terminal of this class that it doesn't take.
fn expected_fault(item: ProductionItem, class: TokenClass) -> ErrorKind
    ensures { result ≡ expected_fault item class }
{
    match item {
        ProductionItem::LabelName => told_by(TokenClass::Star, class, ErrorKind::ComputedGoto),
        ProductionItem::CaseColon => told_by(TokenClass::Ellipsis, class, ErrorKind::CaseRange),
        ProductionItem::DesignatorEnd => {
            told_by(TokenClass::Ellipsis, class, ErrorKind::DesignatorRange)
        }
        ProductionItem::Nonterminal(symbol) => symbol_fault(symbol, class),
        _ => ErrorKind::SyntaxError,
    }
}

// A function's declarator ended before the next terminal.
fn ends_function(state: &ParseState<'_>) -> bool
    ensures { result ≡ ends_function (state_of state.now).function_end (state_of state.now).taken }
{
    match state.function_end() {
        None => false,
        Some(terminal) => terminal == state.taken(),
    }
}

/// What is told where an item can't go on before a terminal of this class that is supported.
pub(crate) fn fault_of_class(
    state: &ParseState<'_>,
    item: ProductionItem,
    class: TokenClass,
) -> ErrorKind
    ensures { result ≡ fault_of_class item (state_of state.now) class }
{
    if is_same(TokenClass::LeftBrace, class) && ends_function(state) {
        ErrorKind::NestedFunction
    } else {
        expected_fault(item, class)
    }
}
