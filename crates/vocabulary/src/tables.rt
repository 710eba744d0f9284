// What is proved of rules and classes as whole lists.
ghost use Rattle.vocabulary.specs.Rules.{RulesAreNumbered};

/// The rules are numbered from 1 in their order, and which classes are on by default.
pub fn rules_are_numbered()
    ensures { RulesAreNumbered }
{}
