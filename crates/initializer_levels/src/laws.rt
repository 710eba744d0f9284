// What holds of walks, for those who take their turns in a loop.
ghost use Rattle.initializer_levels.specs.Laws.{InitializersAreOfParts, LevelsStay, WalksComeToPlans};

/// What a walk over the items of braces finds is what the braces make of the object.
pub fn walks_come_to_plans()
    ensures { WalksComeToPlans }
{}

/// The initializer with a handle is an expression, or braces around those with the handles of its parts.
pub fn initializers_are_of_parts()
    ensures { InitializersAreOfParts }
{}

/// A level that is kept stays what it is where more paths are added.
pub fn levels_stay()
    ensures { LevelsStay }
{}
