// Which operators behind an operand aren't there: items that wait and the class of the next token arrive, and how many of these items
// open to nothing leaves. What was read isn't known here.
ghost use Rattle.std.specs.Prelude.{◌≡◌, ◌≤◌, [], Some, IsTrue, length, take};
ghost use Rattle.vocabulary.specs.declared.symbol.Symbol.TheVariants as symbols;
ghost use Rattle.vocabulary.specs.declared.token_class.TokenClass.{TokenClass};
ghost use Rattle.meaning_grammar.specs.Choice.{choice};
ghost use Rattle.c_opening.specs.Absent.{AreAbsent, IsAbsent};

use vocabulary::{ProductionItem, Symbol, TokenClass};

// Neither an index, a call, a member nor a step stands behind an operand (6.5.2).
fn lacks_postfix(next: TokenClass) -> bool
    ensures { (second : TokenClass) → IsTrue result → choice symbols.PostfixTail next second ≡ Some [] }
{
    !matches!(
        next,
        TokenClass::LeftBracket
            | TokenClass::LeftParenthesis
            | TokenClass::Dot
            | TokenClass::Arrow
            | TokenClass::PlusPlus
            | TokenClass::MinusMinus
    )
}

fn lacks_multiplicative(next: TokenClass) -> bool
    ensures { (second : TokenClass) → IsTrue result → choice symbols.MultiplicativeTail next second ≡ Some [] }
{
    !matches!(
        next,
        TokenClass::Star | TokenClass::Slash | TokenClass::Percent
    )
}

fn lacks_additive(next: TokenClass) -> bool
    ensures { (second : TokenClass) → IsTrue result → choice symbols.AdditiveTail next second ≡ Some [] }
{
    !matches!(next, TokenClass::Plus | TokenClass::Minus)
}

fn lacks_shift(next: TokenClass) -> bool
    ensures { (second : TokenClass) → IsTrue result → choice symbols.ShiftTail next second ≡ Some [] }
{
    !matches!(next, TokenClass::ShiftLeft | TokenClass::ShiftRight)
}

fn lacks_relational(next: TokenClass) -> bool
    ensures { (second : TokenClass) → IsTrue result → choice symbols.RelationalTail next second ≡ Some [] }
{
    !matches!(
        next,
        TokenClass::Less | TokenClass::Greater | TokenClass::LessEqual | TokenClass::GreaterEqual
    )
}

fn lacks_equality(next: TokenClass) -> bool
    ensures { (second : TokenClass) → IsTrue result → choice symbols.EqualityTail next second ≡ Some [] }
{
    !matches!(next, TokenClass::EqualEqual | TokenClass::NotEqual)
}

fn lacks_and(next: TokenClass) -> bool
    ensures { (second : TokenClass) → IsTrue result → choice symbols.AndTail next second ≡ Some [] }
{
    !matches!(next, TokenClass::Ampersand)
}

fn lacks_exclusive_or(next: TokenClass) -> bool
    ensures { (second : TokenClass) → IsTrue result → choice symbols.ExclusiveOrTail next second ≡ Some [] }
{
    !matches!(next, TokenClass::Caret)
}

fn lacks_inclusive_or(next: TokenClass) -> bool
    ensures { (second : TokenClass) → IsTrue result → choice symbols.InclusiveOrTail next second ≡ Some [] }
{
    !matches!(next, TokenClass::Bar)
}

fn lacks_logical_and(next: TokenClass) -> bool
    ensures { (second : TokenClass) → IsTrue result → choice symbols.LogicalAndTail next second ≡ Some [] }
{
    !matches!(next, TokenClass::AndAnd)
}

fn lacks_logical_or(next: TokenClass) -> bool
    ensures { (second : TokenClass) → IsTrue result → choice symbols.LogicalOrTail next second ≡ Some [] }
{
    !matches!(next, TokenClass::OrOr)
}

fn lacks_conditional(next: TokenClass) -> bool
    ensures { (second : TokenClass) → IsTrue result → choice symbols.ConditionalTail next second ≡ Some [] }
{
    !matches!(next, TokenClass::Question)
}

fn lacks_assignment(next: TokenClass) -> bool
    ensures { (second : TokenClass) → IsTrue result → choice symbols.AssignmentTail next second ≡ Some [] }
{
    !matches!(
        next,
        TokenClass::Assign
            | TokenClass::StarAssign
            | TokenClass::SlashAssign
            | TokenClass::PercentAssign
            | TokenClass::PlusAssign
            | TokenClass::MinusAssign
            | TokenClass::ShiftLeftAssign
            | TokenClass::ShiftRightAssign
            | TokenClass::AndAssign
            | TokenClass::XorAssign
            | TokenClass::OrAssign
    )
}

fn lacks_comma(next: TokenClass) -> bool
    ensures { (second : TokenClass) → IsTrue result → choice symbols.CommaTail next second ≡ Some [] }
{
    !matches!(next, TokenClass::Comma)
}

/// Whether a symbol stands for operators behind an operand that aren't there before a token of this class: it opens to nothing,
/// whatever stands behind that token.
pub fn is_absent(symbol: Symbol, next: TokenClass) -> bool
    ensures { (second : TokenClass) → IsTrue result → choice symbol next second ≡ Some [] }
{
    match symbol {
        Symbol::PostfixTail => lacks_postfix(next),
        Symbol::MultiplicativeTail => lacks_multiplicative(next),
        Symbol::AdditiveTail => lacks_additive(next),
        Symbol::ShiftTail => lacks_shift(next),
        Symbol::RelationalTail => lacks_relational(next),
        Symbol::EqualityTail => lacks_equality(next),
        Symbol::AndTail => lacks_and(next),
        Symbol::ExclusiveOrTail => lacks_exclusive_or(next),
        Symbol::InclusiveOrTail => lacks_inclusive_or(next),
        Symbol::LogicalAndTail => lacks_logical_and(next),
        Symbol::LogicalOrTail => lacks_logical_or(next),
        Symbol::ConditionalTail => lacks_conditional(next),
        Symbol::AssignmentTail => lacks_assignment(next),
        Symbol::CommaTail => lacks_comma(next),
        _ => false,
    }
}

// The same of an item.
fn is_absent_item(item: ProductionItem, next: TokenClass) -> bool
    ensures { (second : TokenClass) → IsTrue result → IsAbsent next second item }
{
    match item {
        ProductionItem::Nonterminal(symbol) => is_absent(symbol, next),
        _ => false,
    }
}

/// How many items from the first on are such symbols, one behind the other.
pub fn absent_in_front(items: &[ProductionItem], next: TokenClass) -> usize
    ensures within { result ≤ length items.now }
    ensures absent { (second : TokenClass) → AreAbsent next second (take result items.now) }
{
    for (count, item) in items.iter().enumerate() {
        if !is_absent_item(*item, next) {
            return count;
        }
    }
    items.len()
}
