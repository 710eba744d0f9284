// What one entry of the table holds: the outermost level of a type, over the numbers of its parts.
use crate::elements::Elements;
use crate::shapes::OuterBase;
use sparse_model::{Restrict, Space, TypeId};
use vocabulary::IntKind;

/// An address space, by the number of its name where it has one.
#[derive(Clone, Copy)]
pub enum SpaceKey {
    Absent,
    Number(u32),
    Named(u32),
}

/// What a type is, apart from its qualifiers and flags. Other types in it stand by their numbers.
#[derive(Clone, Copy, PartialEq, Eq, Hash)]
pub enum Form {
    Void,
    Integer(IntKind),
    /// A kind, and the token that tells the identity.
    Restricted(IntKind, u32),
    Pointer(u32),
    /// An element, and how many there are.
    Array(u32, u64),
    /// An element of an array whose length isn't known.
    OpenArray(u32),
    /// A result, and whether more arguments may follow: there are no parameters.
    Function(u32, bool),
    /// A first parameter, and the function type without it, so lists of parameters share their ends.
    Parameter(u32, u32),
    /// The token that names the aggregate first, and whether it is a union.
    Aggregate(u32, bool),
}

/// Qualifiers and flags but for a space.
#[derive(Clone, Copy, PartialEq, Eq, Hash)]
pub struct MarkWords {
    pub is_const: bool,
    pub is_volatile: bool,
    pub noderef: bool,
}

/// Qualifiers and flags, by their space: so they take eight bytes.
#[derive(Clone, Copy, PartialEq, Eq, Hash)]
pub enum Marks {
    WithoutSpace(MarkWords),
    Numbered(MarkWords, u32),
    Named(MarkWords, u32),
}

/// A type's outermost level, in 24 bytes. Equal shapes are equal types.
#[derive(Clone, Copy, PartialEq, Eq, Hash)]
pub struct Shape {
    pub form: Form,
    pub marks: Marks,
}

/// A type, and what is added to it.
#[derive(Clone, Copy, PartialEq, Eq, Hash)]
pub struct Marking {
    pub number: u32,
    pub marks: Marks,
}

/// The numbers of what is left of a type without const and volatile at every level, and without flags
/// besides.
#[derive(Clone, Copy)]
pub struct Reduced {
    pub bare: u32,
    pub plain: u32,
}

/// What is kept of a type beside its shape, in 20 bytes: the numbers of what is left of it, and what it is made of.
#[derive(Clone, Copy)]
pub struct TypeFacts {
    pub bare: u32,
    pub plain: u32,
    pub elements: Elements,
}

impl SpaceKey {
    ghost use Rattle.std.specs.Prelude.{◌≡◌};
    ghost use Rattle.meaning_types.specs.Marks.{later_space};
    ghost use Rattle.c_types.specs.Rows.{space_seen};

    /// The later space, if it is one.
    fn replaced_by(self, later: SpaceKey) -> SpaceKey
        ensures { space_seen result ≡ later_space (space_seen self) (space_seen later) }
    {
        match later {
            SpaceKey::Absent => self,
            SpaceKey::Number(number) => SpaceKey::Number(number),
            SpaceKey::Named(name) => SpaceKey::Named(name),
        }
    }
}

impl Form {
    ghost use Rattle.std.specs.Prelude.{◌≡◌};
    ghost use Rattle.c_types.specs.Forms.{array_form, array_in, element_in, function_in, kind_in, may_be_marked, open_element_in, outer_in, parameter_in, target_in, with_element};
    ghost use Rattle.vocabulary.specs.declared.int_kind.IntKind.{IntKind};

    /// An array of so many elements, if the length is known.
    pub fn array_of(element: u32, count: Option<u64>) -> Form
        ensures { result ≡ array_form element count }
    {
        match count {
            Some(count) => Form::Array(element, count),
            None => Form::OpenArray(element),
        }
    }

    /// The target of a pointer.
    pub fn target(self) -> Option<u32>
        ensures { result ≡ target_in self }
    {
        match self {
            Form::Pointer(target) => Some(target),
            _ => None,
        }
    }

    /// The element of an array.
    pub fn element(self) -> Option<u32>
        ensures { result ≡ element_in self }
    {
        match self {
            Form::Array(element, _) => Some(element),
            Form::OpenArray(element) => Some(element),
            _ => None,
        }
    }

    /// The element of an array, and its length if it is known.
    pub fn array(self) -> Option<(u32, Option<u64>)>
        ensures { result ≡ array_in self }
    {
        match self {
            Form::Array(element, count) => Some((element, Some(count))),
            Form::OpenArray(element) => Some((element, None)),
            _ => None,
        }
    }

    /// The element of an array whose length isn't known.
    pub fn open_element(self) -> Option<u32>
        ensures { result ≡ open_element_in self }
    {
        match self {
            Form::OpenArray(element) => Some(element),
            _ => None,
        }
    }

    /// The array with another element.
    pub fn with_element(self, element: u32) -> Form
        ensures { result ≡ with_element self element }
    {
        match self {
            Form::Array(_, count) => Form::Array(element, count),
            Form::OpenArray(_) => Form::OpenArray(element),
            _ => self,
        }
    }

    /// The kind of an integer, restricted or not.
    pub fn kind(self) -> Option<IntKind>
        ensures { result ≡ kind_in self }
    {
        match self {
            Form::Integer(kind) => Some(kind),
            Form::Restricted(kind, _) => Some(kind),
            _ => None,
        }
    }

    /// The first parameter of a function, and the function without it.
    pub fn parameter(self) -> Option<(u32, u32)>
        ensures { result ≡ parameter_in self }
    {
        match self {
            Form::Parameter(first, rest) => Some((first, rest)),
            _ => None,
        }
    }

    /// The result of a function without parameters, and whether arguments may follow.
    pub fn function(self) -> Option<(u32, bool)>
        ensures { result ≡ function_in self }
    {
        match self {
            Form::Function(answer, variadic) => Some((answer, variadic)),
            _ => None,
        }
    }

    /// What callers see of it, unless it is a function.
    pub fn outer_base(self) -> Option<OuterBase>
        ensures { result ≡ outer_in self }
    {
        match self {
            Form::Void => Some(OuterBase::Void),
            Form::Integer(kind) => Some(OuterBase::Integer(kind, None)),
            Form::Restricted(kind, token) => Some(OuterBase::Integer(kind, Some(Restrict(token)))),
            Form::Pointer(target) => Some(OuterBase::Pointer(TypeId(target))),
            Form::Array(element, count) => Some(OuterBase::Array(TypeId(element), Some(count))),
            Form::OpenArray(element) => Some(OuterBase::Array(TypeId(element), None)),
            Form::Function(_, _) => None,
            Form::Parameter(_, _) => None,
            Form::Aggregate(token, is_union) => Some(OuterBase::Aggregate(token, is_union)),
        }
    }

    /// Whether it has qualifiers and flags of its own, unlike an array and a function.
    pub fn may_be_marked(self) -> bool
        ensures { result ≡ may_be_marked self }
    {
        match self {
            Form::Array(_, _) => false,
            Form::OpenArray(_) => false,
            Form::Function(_, _) => false,
            Form::Parameter(_, _) => false,
            Form::Void => true,
            Form::Integer(_) => true,
            Form::Restricted(_, _) => true,
            Form::Pointer(_) => true,
            Form::Aggregate(_, _) => true,
        }
    }
}

impl Marks {
    ghost use Rattle.std.specs.Prelude.{◌≡◌, ◌||◌, false};
    ghost use Rattle.meaning_types.specs.Types.{no_flags, no_qualifiers};
    ghost use Rattle.meaning_types.specs.Marks.{later_space};
    ghost use Rattle.c_types.specs.Rows.{flags_in, no_marks, qualifiers_in, space_in, space_seen, words_in};

    /// These words with a space, if it is one.
    pub fn new(words: MarkWords, space: SpaceKey) -> Marks
        ensures words { words_in result ≡ words }
        ensures space { space_in result ≡ space }
    {
        match space {
            SpaceKey::Absent => Marks::WithoutSpace(words),
            SpaceKey::Number(number) => Marks::Numbered(words, number),
            SpaceKey::Named(name) => Marks::Named(words, name),
        }
    }

    /// None.
    pub fn none() -> Marks
        ensures { result ≡ no_marks }
    {
        Marks::WithoutSpace(MarkWords {
            is_const: false,
            is_volatile: false,
            noderef: false,
        })
    }

    /// All but the space.
    pub fn words(self) -> MarkWords
        ensures { result ≡ words_in self }
    {
        match self {
            Marks::WithoutSpace(words) => words,
            Marks::Numbered(words, _) => words,
            Marks::Named(words, _) => words,
        }
    }

    /// The space.
    pub fn space(self) -> SpaceKey
        ensures { result ≡ space_in self }
    {
        match self {
            Marks::WithoutSpace(_) => SpaceKey::Absent,
            Marks::Numbered(_, number) => SpaceKey::Number(number),
            Marks::Named(_, name) => SpaceKey::Named(name),
        }
    }

    /// Whether there is a qualifier or a flag.
    pub fn are_some(self) -> bool
        ensures qualifiers { result ≡ false → qualifiers_in self ≡ no_qualifiers }
        ensures flags { result ≡ false → flags_in self ≡ no_flags }
    {
        match self {
            Marks::WithoutSpace(
                MarkWords {
                    is_const: false,
                    is_volatile: false,
                    noderef: false,
                },
            ) => false,
            _ => true,
        }
    }

    /// What is left without const and volatile.
    pub fn unqualified(self) -> Marks
        ensures qualifiers { qualifiers_in result ≡ no_qualifiers }
        ensures flags { flags_in result ≡ flags_in self }
    {
        Marks::new(
            MarkWords {
                is_const: false,
                is_volatile: false,
                noderef: self.words().noderef,
            },
            self.space(),
        )
    }

    /// These and others besides: a later space replaces an earlier one.
    pub fn and(self, later: Marks) -> Marks
        ensures is_const { (words_in result).is_const ≡ (words_in self).is_const || (words_in later).is_const }
        ensures is_volatile { (words_in result).is_volatile ≡ (words_in self).is_volatile || (words_in later).is_volatile }
        ensures noderef { (words_in result).noderef ≡ (words_in self).noderef || (words_in later).noderef }
        ensures space { space_seen (space_in result) ≡ later_space (space_seen (space_in self)) (space_seen (space_in later)) }
    {
        let own = self.words();
        let more = later.words();
        Marks::new(
            MarkWords {
                is_const: own.is_const || more.is_const,
                is_volatile: own.is_volatile || more.is_volatile,
                noderef: own.noderef || more.noderef,
            },
            self.space().replaced_by(later.space()),
        )
    }
}

impl Shape {
    ghost use Rattle.std.specs.Prelude.{◌≡◌};
    ghost use Rattle.c_types.specs.Rows.{no_marks};

    /// The shape without const, volatile and flags.
    pub fn unmarked(form: Form) -> Shape
        ensures { result ≡ record { form = form; marks = no_marks } }
    {
        Shape {
            form,
            marks: Marks::none(),
        }
    }
}
