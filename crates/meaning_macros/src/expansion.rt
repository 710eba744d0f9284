// What is proved of macros and of what their calls become, and examples.
ghost use Rattle.meaning_macros.specs.examples.Expansions.{RescanningExamples, PastingExamples, StringizingExamples, VariadicExamples, PredefinedExamples, CallExamples, PlaceExamples};
ghost use Rattle.meaning_macros.specs.examples.Mixed.{MixedExamples};
ghost use Rattle.meaning_macros.specs.examples.Budgets.{BudgetExamples};
ghost use Rattle.meaning_macros.specs.examples.Definitions.{DefinitionExamples};
ghost use Rattle.meaning_macros.specs.laws.Expansion.{ExpansionIsItsCases, NoMoreIsLeft, PlainTokensStay, TablesAreWhatTheySay, TokensJoinAsSpelled};
ghost use Rattle.meaning_macros.specs.laws.Agreement.{AgreementIsAnEquivalence};

/// The expansion of a list is the five cases on its first token, with the expansion itself for what goes on.
pub fn expansions_are_their_cases()
    ensures { ExpansionIsItsCases }
{}

/// Two tables in which each name stands for the same macro, and each file is spelled alike, expand alike.
pub fn tables_are_what_they_say()
    ensures { TablesAreWhatTheySay }
{}

/// No expansion leaves more replacements or made tokens than its budget had, and the count of `__COUNTER__` never falls.
pub fn budgets_are_used_up()
    ensures { NoMoreIsLeft }
{}

/// Tokens that name no macro, and none of the three names that aren't in the table, are put as they are.
pub fn plain_tokens_stay()
    ensures { PlainTokensStay }
{}

/// Two tokens are joined to one exactly where the joined spelling is a token's.
pub fn tokens_join_as_spelled()
    ensures { TokensJoinAsSpelled }
{}

/// Definitions that agree are alike in all that counts.
pub fn agreement_is_an_equivalence()
    ensures { AgreementIsAnEquivalence }
{}

/// Texts and their macros become what one can work out by hand.
pub fn worked_examples()
    ensures rescanning { RescanningExamples }
    ensures pasting { PastingExamples }
    ensures stringizing { StringizingExamples }
    ensures variadic { VariadicExamples }
    ensures predefined { PredefinedExamples }
    ensures calls { CallExamples }
    ensures places { PlaceExamples }
    ensures mixed { MixedExamples }
    ensures budgets { BudgetExamples }
    ensures definitions { DefinitionExamples }
{}
