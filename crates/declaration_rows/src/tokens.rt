// The lower of two tokens that there may be.
ghost use Rattle.std.specs.Prelude.{◌≡◌};
ghost use Rattle.declaration_rows.specs.Parts.{lowest};

/// The lower of two tokens.
pub fn lowest(token: Option<u32>, other: Option<u32>) -> Option<u32>
    ensures { result ≡ lowest token other }
{
    match (token, other) {
        (None, _) => other,
        (Some(first), None) => Some(first),
        (Some(first), Some(second)) => Some(if second < first { second } else { first }),
    }
}
