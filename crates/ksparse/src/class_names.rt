// The classes of warnings by the names that words have for them.
ghost use Rattle.std.specs.Prelude.{◌≡◌};
ghost use Rattle.std.specs.Str.{bytes_eq};
ghost use Rattle.vocabulary.specs.Rules.{all_classes};
ghost use Rattle.meaning_answer.specs.Options.{class_name, class_named, is_class};
ghost use Rattle.meaning_warnings.specs.Listing.{class_index, is_on};

use sparse_model::{Class, ClassSet};

const ALL_CLASSES: [Class; 13] = [
    Class::AddressSpace,
    Class::Bitwise,
    Class::Context,
    Class::NonPointerNull,
    Class::CastToAs,
    Class::Decl,
    Class::Shadow,
    Class::Undef,
    Class::ReturnVoid,
    Class::DoWhile,
    Class::StrictPrototypes,
    Class::OneBitSignedBitfield,
    Class::CastTruncate,
];

/// All classes.
pub(crate) fn all_classes() -> &'static [Class]
    ensures { result.now ≡ all_classes }
{
    &ALL_CLASSES
}

// How a class is named.
fn class_name(class: Class) -> &'static [u8]
    ensures { result.now ≡ class_name class }
{
    match class {
        Class::AddressSpace => b"address-space",
        Class::Bitwise => b"bitwise",
        Class::Context => b"context",
        Class::NonPointerNull => b"non-pointer-null",
        Class::CastToAs => b"cast-to-as",
        Class::Decl => b"decl",
        Class::Shadow => b"shadow",
        Class::Undef => b"undef",
        Class::ReturnVoid => b"return-void",
        Class::DoWhile => b"do-while",
        Class::StrictPrototypes => b"strict-prototypes",
        Class::OneBitSignedBitfield => b"one-bit-signed-bitfield",
        Class::CastTruncate => b"cast-truncate",
    }
}

/// The class with this name.
pub(crate) fn class_named(name: &[u8]) -> Option<Class>
    ensures { result ≡ class_named name.now }
{
    let mut left = all_classes();
    'classes: while let Some((class, others)) = left.split_first() {
        if has_name(*class, name) {
            return Some(*class);
        }
        left = others;
    }
    None
}

fn has_name(class: Class, name: &[u8]) -> bool
    ensures { result ≡ bytes_eq name.now (class_name class) }
{
    name == class_name(class)
}

/// Both are one class, since no two have one name.
pub(crate) fn is_class(class: Class, other: Class) -> bool
    ensures { result ≡ is_class class other }
{
    has_name(class, class_name(other))
}

/// The class is among those that are on.
pub(crate) fn is_on(classes: &ClassSet, class: Class) -> bool
    ensures { result ≡ is_on classes.now class }
{
    let mut left = classes.as_slice();
    'classes: while let Some((on, others)) = left.split_first() {
        if number_of(*on) == number_of(class) {
            return true;
        }
        left = others;
    }
    false
}

fn number_of(class: Class) -> u8
    ensures { result ≡ class_index class }
{
    class as u8
}
