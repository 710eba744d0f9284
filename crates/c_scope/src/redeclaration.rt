// Which names a scope may declare twice: what declared a name before and what declares it now arrive, and whether that
// is refused leaves. Neither the name nor the scope is known here.
ghost use Rattle.std.specs.Prelude.{◌≡◌};
ghost use Rattle.meaning_scopes.specs.Redeclaration.{is_redeclared as redeclares};

use vocabulary::Bound;

/// Whether a scope that says this of a name can't declare it as that in the same name space (C11 6.7 p3).
/// Tags that are declared again are judged by rules of their own (6.7.2.3).
pub fn is_redeclared(old: Option<Bound>, new: Bound) -> bool
    ensures { result ≡ redeclares old new }
{
    match old {
        None => false,
        Some(Bound::Typedef) => new != Bound::Typedef,
        Some(Bound::Linked) => new != Bound::Linked,
        Some(Bound::Tag) => new != Bound::Tag,
        Some(_) => true,
    }
}
