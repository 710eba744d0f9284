// A row that two tokens choose. Which rows others choose are worked examples of `meaning_grammar`.
use c_grammar::{choose, productions_of};
use std::test::Fail;
use vocabulary::Symbol::CastExpression;
use vocabulary::TokenClass::{IntKeyword, LeftParenthesis};

#[test]
fn a_type_in_parentheses_begins_a_cast(rt: HostRuntime) -> Result<(), Fail> {
    let Some(cast) = productions_of(CastExpression).first() else {
        return Err(Fail::new("no row"));
    };
    let Some(items) = choose(CastExpression, [LeftParenthesis, IntKeyword]) else {
        return Err(Fail::new("no row is chosen"));
    };
    assert!(rt; cast.items == items);
    Ok(())
}
