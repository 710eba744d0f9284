// What holds of the bodies of a specifier.
ghost use Rattle.aggregate_rows.specs.Bodies.{FirstBodyIsAll};

/// A specifier of a structure or a union that has one list of members at most has the body that `body_members` tells of it, and no other.
pub fn the_first_body_is_all()
    ensures { FirstBodyIsAll }
{}
