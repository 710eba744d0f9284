// What specifiers come to: which of them may stand together (C11 6.7.1, 6.7.2 p2, 6.7.4, 6.7.6.3 p2). One word arrives behind
// others, and what all come to leaves. Where they stand isn't known here.
ghost use Rattle.std.specs.Prelude.{◌≡◌};
ghost use Rattle.meaning_derivation.specs.Specifiers.{is_bad_file_storage, is_bad_in_block, is_bad_in_file, is_bad_member, is_bad_parameter_storage, is_bad_storage, is_bad_type, is_function_word, is_no_type, is_qualifier_word, is_refused_parameter, is_some_storage, lacks_type, lacks_type_or_attributes, nothing_specified, parameter_error, specified_with, storage_or_bad, storage_with, type_with, with_char, with_int, with_long, with_short, with_sign, with_whole, word_of};
ghost use Rattle.parse_state.specs.Specifying.{specified_seen, storage_seen, type_seen, word_seen};

use vocabulary::{ErrorKind, NodeKind};

// What a specifier is, as far as it says which others may stand beside it.
#[derive(Clone, Copy)]
pub(crate) enum SpecifierWord {
    // A type by itself: `void`, `_Bool`, a typedef name, a structure, a union, an enumeration, `typeof`.
    Whole,
    Char,
    // `signed` or `unsigned`.
    Sign,
    Short,
    Long,
    Int,
    // `typedef`, `extern` or `static`.
    Storage,
    Auto,
    Register,
    // `inline` or `_Noreturn`.
    Function,
    // `const`, `volatile` or `restrict`.
    Qualifier,
    // A list of attributes.
    Attributes,
}

pub(crate) fn word_of(kind: NodeKind) -> SpecifierWord
    ensures { word_seen result ≡ word_of kind }
{
    match kind {
        NodeKind::VoidSpecifier
        | NodeKind::BoolSpecifier
        | NodeKind::TypedefName
        | NodeKind::StructSpecifier
        | NodeKind::UnionSpecifier
        | NodeKind::EnumSpecifier
        | NodeKind::TypeofType
        | NodeKind::TypeofExpression => SpecifierWord::Whole,
        NodeKind::CharSpecifier => SpecifierWord::Char,
        NodeKind::SignedSpecifier | NodeKind::UnsignedSpecifier => SpecifierWord::Sign,
        NodeKind::ShortSpecifier => SpecifierWord::Short,
        NodeKind::LongSpecifier => SpecifierWord::Long,
        NodeKind::IntSpecifier => SpecifierWord::Int,
        NodeKind::TypedefSpecifier | NodeKind::ExternSpecifier | NodeKind::StaticSpecifier => {
            SpecifierWord::Storage
        }
        NodeKind::AutoSpecifier => SpecifierWord::Auto,
        NodeKind::RegisterSpecifier => SpecifierWord::Register,
        NodeKind::InlineSpecifier | NodeKind::NoreturnSpecifier => SpecifierWord::Function,
        NodeKind::ConstQualifier | NodeKind::VolatileQualifier | NodeKind::RestrictQualifier => {
            SpecifierWord::Qualifier
        }
        _ => SpecifierWord::Attributes,
    }
}

// How long an integer is, by its words.
#[derive(Clone, Copy)]
pub(crate) enum IntegerSize {
    Plain,
    Short,
    Long,
    LongLong,
}

// What the words of a type come to.
#[derive(Clone, Copy)]
pub(crate) enum TypeWords {
    Nothing,
    Whole,
    // Whether it has a sign.
    Char(bool),
    // Whether it has a sign, and the word `int`.
    Integer(IntegerSize, bool, bool),
    Bad,
}

impl TypeWords {
    fn with_whole(self) -> TypeWords
        ensures { type_seen result ≡ with_whole (type_seen self) }
    {
        match self {
            TypeWords::Nothing => TypeWords::Whole,
            _ => TypeWords::Bad,
        }
    }

    fn with_char(self) -> TypeWords
        ensures { type_seen result ≡ with_char (type_seen self) }
    {
        match self {
            TypeWords::Nothing => TypeWords::Char(false),
            TypeWords::Integer(IntegerSize::Plain, true, false) => TypeWords::Char(true),
            _ => TypeWords::Bad,
        }
    }

    fn with_sign(self) -> TypeWords
        ensures { type_seen result ≡ with_sign (type_seen self) }
    {
        match self {
            TypeWords::Nothing => TypeWords::Integer(IntegerSize::Plain, true, false),
            TypeWords::Char(false) => TypeWords::Char(true),
            TypeWords::Integer(size, false, has_int) => TypeWords::Integer(size, true, has_int),
            _ => TypeWords::Bad,
        }
    }

    fn with_int(self) -> TypeWords
        ensures { type_seen result ≡ with_int (type_seen self) }
    {
        match self {
            TypeWords::Nothing => TypeWords::Integer(IntegerSize::Plain, false, true),
            TypeWords::Integer(size, has_sign, false) => TypeWords::Integer(size, has_sign, true),
            _ => TypeWords::Bad,
        }
    }

    fn with_short(self) -> TypeWords
        ensures { type_seen result ≡ with_short (type_seen self) }
    {
        match self {
            TypeWords::Nothing => TypeWords::Integer(IntegerSize::Short, false, false),
            TypeWords::Integer(IntegerSize::Plain, has_sign, has_int) => {
                TypeWords::Integer(IntegerSize::Short, has_sign, has_int)
            }
            _ => TypeWords::Bad,
        }
    }

    fn with_long(self) -> TypeWords
        ensures { type_seen result ≡ with_long (type_seen self) }
    {
        match self {
            TypeWords::Nothing => TypeWords::Integer(IntegerSize::Long, false, false),
            TypeWords::Integer(IntegerSize::Plain, has_sign, has_int) => {
                TypeWords::Integer(IntegerSize::Long, has_sign, has_int)
            }
            TypeWords::Integer(IntegerSize::Long, has_sign, has_int) => {
                TypeWords::Integer(IntegerSize::LongLong, has_sign, has_int)
            }
            _ => TypeWords::Bad,
        }
    }

    // One word more.
    fn with_word(self, word: SpecifierWord) -> TypeWords
        ensures { type_seen result ≡ type_with (word_seen word) (type_seen self) }
    {
        match word {
            SpecifierWord::Whole => self.with_whole(),
            SpecifierWord::Char => self.with_char(),
            SpecifierWord::Sign => self.with_sign(),
            SpecifierWord::Int => self.with_int(),
            SpecifierWord::Short => self.with_short(),
            SpecifierWord::Long => self.with_long(),
            _ => self,
        }
    }

    fn is_bad(self) -> bool
        ensures { result ≡ is_bad_type (type_seen self) }
    {
        match self {
            TypeWords::Bad => true,
            _ => false,
        }
    }

    fn is_nothing(self) -> bool
        ensures { result ≡ is_no_type (type_seen self) }
    {
        match self {
            TypeWords::Nothing => true,
            _ => false,
        }
    }
}

// What storage classes come to.
#[derive(Clone, Copy)]
pub(crate) enum StorageWords {
    Nothing,
    // `typedef`, `extern` or `static`.
    Usual,
    Auto,
    Register,
    // More than one.
    Bad,
}

impl StorageWords {
    // This one behind what stands there: it is the first one, or one too many.
    fn behind(self, words: StorageWords) -> StorageWords
        ensures { storage_seen result ≡ storage_or_bad (storage_seen self) (storage_seen words) }
    {
        match words {
            StorageWords::Nothing => self,
            _ => StorageWords::Bad,
        }
    }

    // One word more.
    fn with_word(self, word: SpecifierWord) -> StorageWords
        ensures { storage_seen result ≡ storage_with (word_seen word) (storage_seen self) }
    {
        match word {
            SpecifierWord::Storage => StorageWords::Usual.behind(self),
            SpecifierWord::Auto => StorageWords::Auto.behind(self),
            SpecifierWord::Register => StorageWords::Register.behind(self),
            _ => self,
        }
    }

    fn is_bad(self) -> bool
        ensures { result ≡ is_bad_storage (storage_seen self) }
    {
        match self {
            StorageWords::Bad => true,
            _ => false,
        }
    }

    // Whether it may not stand at file scope (6.9 p2).
    fn is_bad_in_file(self) -> bool
        ensures { result ≡ is_bad_file_storage (storage_seen self) }
    {
        match self {
            StorageWords::Auto | StorageWords::Register | StorageWords::Bad => true,
            _ => false,
        }
    }

    // Whether it may not stand in a parameter (6.7.6.3 p2).
    fn is_bad_in_parameter(self) -> bool
        ensures { result ≡ is_bad_parameter_storage (storage_seen self) }
    {
        match self {
            StorageWords::Nothing | StorageWords::Register => false,
            _ => true,
        }
    }

    fn is_some(self) -> bool
        ensures { result ≡ is_some_storage (storage_seen self) }
    {
        match self {
            StorageWords::Nothing => false,
            _ => true,
        }
    }
}

fn is_function_word(word: SpecifierWord) -> bool
    ensures { result ≡ is_function_word (word_seen word) }
{
    match word {
        SpecifierWord::Function => true,
        _ => false,
    }
}

fn is_qualifier_word(word: SpecifierWord) -> bool
    ensures { result ≡ is_qualifier_word (word_seen word) }
{
    match word {
        SpecifierWord::Qualifier => true,
        _ => false,
    }
}

/// What specifiers come to.
#[derive(Clone, Copy)]
pub struct Specified {
    pub(crate) type_words: TypeWords,
    pub(crate) storage: StorageWords,
    pub(crate) is_function: bool,
    pub(crate) is_qualified: bool,
}

impl Specified {
    /// No specifier.
    pub(crate) fn nothing() -> Specified
        ensures { specified_seen result ≡ nothing_specified }
    {
        Specified {
            type_words: TypeWords::Nothing,
            storage: StorageWords::Nothing,
            is_function: false,
            is_qualified: false,
        }
    }

    /// One word more.
    pub(crate) fn with_word(self, word: SpecifierWord) -> Specified
        ensures { specified_seen result ≡ specified_with (word_seen word) (specified_seen self) }
    {
        Specified {
            type_words: self.type_words.with_word(word),
            storage: self.storage.with_word(word),
            is_function: self.is_function || is_function_word(word),
            is_qualified: self.is_qualified || is_qualifier_word(word),
        }
    }

    /// Whether they may not stand at file scope.
    pub fn is_bad_in_file(self) -> bool
        ensures { result ≡ is_bad_in_file (specified_seen self) }
    {
        self.type_words.is_bad() || self.storage.is_bad_in_file()
    }

    /// Whether they may not stand in a block.
    pub fn is_bad_in_block(self) -> bool
        ensures { result ≡ is_bad_in_block (specified_seen self) }
    {
        self.type_words.is_bad() || self.storage.is_bad()
    }

    /// Whether they may not stand in a member or a type name.
    pub fn is_bad_member(self) -> bool
        ensures { result ≡ is_bad_member (specified_seen self) }
    {
        self.type_words.is_bad() || (self.storage.is_some() || self.is_function)
    }

    /// Whether they may not stand in a parameter, or have no type.
    pub fn is_refused_parameter(self) -> bool
        ensures { result ≡ is_refused_parameter (specified_seen self) }
    {
        self.lacks_type()
            || (self.type_words.is_bad()
                || (self.storage.is_bad_in_parameter() || self.is_function))
    }

    /// What is told of such a parameter: that it has no type, whatever else is bad.
    pub fn parameter_error(self) -> ErrorKind
        ensures { result ≡ parameter_error (specified_seen self) }
    {
        if self.lacks_type() {
            ErrorKind::ParameterWithoutType
        } else {
            ErrorKind::BadDeclaration
        }
    }

    /// Whether nothing is told of a type.
    pub fn lacks_type(self) -> bool
        ensures { result ≡ lacks_type (specified_seen self) }
    {
        self.type_words.is_nothing()
    }

    /// Whether nothing is told of a type, and there is more than attributes.
    pub fn lacks_type_or_attributes(self) -> bool
        ensures { result ≡ lacks_type_or_attributes (specified_seen self) }
    {
        if self.type_words.is_nothing() {
            self.storage.is_some() || (self.is_function || self.is_qualified)
        } else {
            false
        }
    }
}
