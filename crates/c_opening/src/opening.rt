// What a symbol of expressions opens to, down to an operand: a symbol and the classes of the next two tokens arrive, and the
// items that come in its place leave, or none. What was read isn't known here.
ghost use Rattle.std.specs.Prelude.{◌≡◌, ◌≤◌, IfNone, IfSome, None, length};
ghost use Rattle.vocabulary.specs.declared.symbol.Symbol.TheVariants as symbols;
ghost use Rattle.vocabulary.specs.declared.token_class.TokenClass.{TokenClass};
ghost use Rattle.meaning_grammar.specs.Choice.{choice};
ghost use Rattle.c_opening.specs.Opening.{IsFront, Opens};
ghost use Rattle.c_grammar.specs.Seen.{behind_of, next_of};

use c_grammar::{begins_expression, choose};
use vocabulary::Action::{MakeCharacterConstant, MakeIntegerConstant, MakeOver, UseName};
use vocabulary::ProductionItem::{Do, Nonterminal, Token};
use vocabulary::Symbol::{
    AdditiveTail, AndTail, AssignmentTail, CastExpression, CommaTail, ConditionalTail,
    EqualityTail, ExclusiveOrTail, InclusiveOrTail, LogicalAndTail, LogicalOrTail,
    MultiplicativeTail, PostfixTail, RelationalTail, ShiftTail, StringLiterals,
};
use vocabulary::TokenClass::{Ampersand, Character, Exclamation, Identifier, Number, Star};
use vocabulary::{NodeKind, ProductionItem, Role, Symbol, TokenClass};

// An operand, and behind it the operators of each kind, those that bind tightest first.
#[rattlefmt::skip]
static OPERAND_AND_TAILS: [ProductionItem; 14] = [
    Nonterminal(CastExpression), Nonterminal(MultiplicativeTail), Nonterminal(AdditiveTail), Nonterminal(ShiftTail),
    Nonterminal(RelationalTail), Nonterminal(EqualityTail), Nonterminal(AndTail), Nonterminal(ExclusiveOrTail),
    Nonterminal(InclusiveOrTail), Nonterminal(LogicalAndTail), Nonterminal(LogicalOrTail), Nonterminal(ConditionalTail),
    Nonterminal(AssignmentTail), Nonterminal(CommaTail),
];

// Operands that begin with their own token.
static NAME: [ProductionItem; 3] = [Token(Identifier), Do(UseName), Nonterminal(PostfixTail)];

static NUMBER: [ProductionItem; 3] = [
    Token(Number),
    Do(MakeIntegerConstant),
    Nonterminal(PostfixTail),
];

static CHARACTER: [ProductionItem; 3] = [
    Token(Character),
    Do(MakeCharacterConstant),
    Nonterminal(PostfixTail),
];

static STRING: [ProductionItem; 2] = [Nonterminal(StringLiterals), Nonterminal(PostfixTail)];

static ADDRESS: [ProductionItem; 3] = [
    Token(Ampersand),
    Nonterminal(CastExpression),
    Do(MakeOver(NodeKind::Address, Role::Evaluated)),
];

static INDIRECTION: [ProductionItem; 3] = [
    Token(Star),
    Nonterminal(CastExpression),
    Do(MakeOver(NodeKind::Indirection, Role::Evaluated)),
];

static NEGATION: [ProductionItem; 3] = [
    Token(Exclamation),
    Nonterminal(CastExpression),
    Do(MakeOver(NodeKind::LogicalNot, Role::Condition)),
];

// What a cast expression opens to before a token of this class, where that alone decides.
#[tactic(auto, using(crate::proofs::Opened::name_opens, crate::proofs::Opened::number_opens, crate::proofs::Opened::character_opens, crate::proofs::Opened::string_opens, crate::proofs::Opened::address_opens, crate::proofs::Opened::indirection_opens, crate::proofs::Opened::negation_opens))]
fn open_operand(next: TokenClass) -> Option<&'static [ProductionItem]>
    ensures opens { IfSome result (λ items. (second : TokenClass) → Opens next second symbols.CastExpression items.now) }
    ensures short { IfSome result (λ items. length items.now ≤ 15) }
{
    match next {
        TokenClass::Identifier => Some(&NAME),
        TokenClass::Number => Some(&NUMBER),
        TokenClass::Character => Some(&CHARACTER),
        TokenClass::String => Some(&STRING),
        TokenClass::Ampersand => Some(&ADDRESS),
        TokenClass::Star => Some(&INDIRECTION),
        TokenClass::Exclamation => Some(&NEGATION),
        _ => None,
    }
}

// The front of the operand and its operators that has so many items, where an expression begins with a token of this class.
fn operand_and_tails(next: TokenClass, count: usize) -> Option<&'static [ProductionItem]>
    requires { count ≤ 14 }
    ensures { IfSome result (λ items. IsFront next count items.now) }
{
    if begins_expression(next) {
        Some(&OPERAND_AND_TAILS[..count])
    } else {
        None
    }
}

// What a symbol opens to before a token of this class, where that alone decides and it is more than one row.
fn open_expression(symbol: Symbol, next: TokenClass) -> Option<&'static [ProductionItem]>
    ensures opens { IfSome result (λ items. (second : TokenClass) → Opens next second symbol items.now) }
    ensures short { IfSome result (λ items. length items.now ≤ 15) }
{
    match symbol {
        Symbol::Expression => operand_and_tails(next, 14),
        Symbol::AssignmentExpression => operand_and_tails(next, 13),
        Symbol::ConditionalExpression => operand_and_tails(next, 12),
        Symbol::LogicalOrExpression => operand_and_tails(next, 11),
        Symbol::LogicalAndExpression => operand_and_tails(next, 10),
        Symbol::InclusiveOrExpression => operand_and_tails(next, 9),
        Symbol::ExclusiveOrExpression => operand_and_tails(next, 8),
        Symbol::AndExpression => operand_and_tails(next, 7),
        Symbol::EqualityExpression => operand_and_tails(next, 6),
        Symbol::RelationalExpression => operand_and_tails(next, 5),
        Symbol::ShiftExpression => operand_and_tails(next, 4),
        Symbol::AdditiveExpression => operand_and_tails(next, 3),
        Symbol::CastExpression => open_operand(next),
        _ => None,
    }
}

/// The items that stand in the place of a symbol before tokens of these classes, once rows have taken the place of whatever
/// stands first among them, or some of these rows.
///
/// None where the symbol has no row for them, so that nothing goes on there. It takes no memory.
pub fn open(symbol: Symbol, look: [TokenClass; 2]) -> Option<&'static [ProductionItem]>
    ensures opens { IfSome result (λ items. Opens (next_of look) (behind_of look) symbol items.now) }
    ensures short { IfSome result (λ items. length items.now ≤ 15) }
    ensures none { IfNone result (choice symbol (next_of look) (behind_of look) ≡ None) }
{
    match open_expression(symbol, look[0]) {
        Some(items) => Some(items),
        None => choose(symbol, look),
    }
}
