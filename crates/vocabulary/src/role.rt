// Roles of children, and the tags that lists keep for them.
ghost use Rattle.std.specs.Prelude.{◌≡◌};
ghost use Rattle.vocabulary.specs.Roles.{TagsKeepRoles, role_tag};

/// What a part is for the node above it.
#[derive(Clone, Copy, Debug, PartialEq, Eq)]
pub enum Role {
    /// It is evaluated where the node is.
    Evaluated,
    /// It decides whether or how often other parts are evaluated.
    Condition,
    /// It is part of a type.
    TypePart,
    /// It is an expression that isn't evaluated.
    Unevaluated,
}

impl Role {
    /// The tag, from 0 to 3, by which a list of children keeps the role.
    pub fn tag(self) -> u8
        ensures { result ≡ role_tag self }
    {
        self as u8
    }
}

/// A list of children keeps the role of each of them.
pub fn tags_keep_roles()
    ensures { TagsKeepRoles }
{}
