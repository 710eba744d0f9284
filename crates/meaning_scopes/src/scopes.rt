// What is proved of scopes, for names of any type.
ghost use Rattle.meaning_scopes.specs.laws.Scopes.{FindsFirst, FindsInnermost, LeavesNothing, NamesAreRenamed, OpensAgain, SpacesAreTold};
ghost use Rattle.meaning_scopes.specs.examples.Scopes.{ClassExamples, FindExamples, RedeclarationExamples, ScopeExamples};

/// A name stands for the first entry of its name space, which is the innermost scope's where that has one.
pub fn names_are_found<N>()
    ensures first { FindsFirst N }
    ensures innermost { FindsInnermost N }
    ensures spaces { SpacesAreTold }
{}

/// What a scope bound goes with it, and comes back where its entries are bound in a new scope.
pub fn scopes_open_again<N>()
    ensures leaves { LeavesNothing N }
    ensures again { OpensAgain N }
{}

/// Names of another type that are equal where these are find the same entries.
pub fn other_names_find_the_same<N, M>()
    ensures { NamesAreRenamed N M }
{}

/// Small lists of scopes, by hand; and each pair of kinds that a name can have in one scope.
pub fn worked_examples()
    ensures found { FindExamples }
    ensures scopes { ScopeExamples }
    ensures classes { ClassExamples }
    ensures redeclared { RedeclarationExamples }
{}
