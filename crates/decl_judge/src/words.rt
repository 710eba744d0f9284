// Words among specifiers, and behind the `*` of a pointer (C11 6.7.1 to 6.7.3).
ghost use Rattle.std.specs.Prelude.{◌≡◌, ◌+◌, ◌^◌, ◌<◌, ◌≤◌};
ghost use Rattle.meaning_typing.specs.Specifiers as meaning;
ghost use Rattle.decl_judge.specs.Seen.{kind_with_sign, words_seen};
ghost use Rattle.decl_judge.specs.Units.{handles_of, nodes_of};

use crate::nodes::kind_at;
use c_tree::Unit;
use node_facts::Storage;
use sparse_model::{IntKind, NodeKind};
use tag_list::TagList;

/// Which words stand among specifiers.
#[derive(Clone, Copy, Debug, PartialEq, Eq)]
pub struct Words {
    pub has_void: bool,
    pub has_bool: bool,
    pub has_char: bool,
    pub has_short: bool,
    /// How often `long` stands there.
    pub longs: u32,
    pub has_signed: bool,
    pub has_unsigned: bool,
    pub is_const: bool,
    pub is_volatile: bool,
    pub storage: Storage,
}

impl Words {
    /// None.
    pub fn none() -> Words
        ensures seen { words_seen result ≡ meaning.no_words }
        ensures longs { result.longs ≡ 0 }
    {
        Words {
            has_void: false,
            has_bool: false,
            has_char: false,
            has_short: false,
            longs: 0,
            has_signed: false,
            has_unsigned: false,
            is_const: false,
            is_volatile: false,
            storage: Storage {
                is_typedef: false,
                is_extern: false,
                is_static: false,
                is_register: false,
            },
        }
    }

    /// One word more; another node than a word says nothing.
    fn add(&mut self, kind: NodeKind)
        requires { self.old.longs < 2 ^ 30 }
        ensures seen { words_seen self.new ≡ meaning.with_word kind (words_seen self.old) }
        ensures longs { self.new.longs ≤ self.old.longs + 1 }
    {
        match kind {
            NodeKind::VoidSpecifier => self.has_void = true,
            NodeKind::BoolSpecifier => self.has_bool = true,
            NodeKind::CharSpecifier => self.has_char = true,
            NodeKind::ShortSpecifier => self.has_short = true,
            NodeKind::LongSpecifier => self.longs += 1,
            NodeKind::SignedSpecifier => self.has_signed = true,
            NodeKind::UnsignedSpecifier => self.has_unsigned = true,
            NodeKind::ConstQualifier => self.is_const = true,
            NodeKind::VolatileQualifier => self.is_volatile = true,
            NodeKind::TypedefSpecifier => self.storage.is_typedef = true,
            NodeKind::ExternSpecifier => self.storage.is_extern = true,
            NodeKind::StaticSpecifier => self.storage.is_static = true,
            NodeKind::RegisterSpecifier => self.storage.is_register = true,
            _ => (),
        }
    }

    // A kind of `char`.
    fn char_kind(self) -> IntKind
        ensures { result ≡ meaning.kind_of_char (words_seen self) }
    {
        if self.has_unsigned {
            IntKind::UChar
        } else if self.has_signed {
            IntKind::SChar
        } else {
            IntKind::Char
        }
    }

    // A kind that has a sign, or its partner without one.
    fn with_sign(self, signed: IntKind, unsigned: IntKind) -> IntKind
        ensures { result ≡ kind_with_sign (words_seen self) signed unsigned }
    {
        if self.has_unsigned { unsigned } else { signed }
    }

    /// The kind of integers that they name (6.7.2 p2, p5).
    pub fn kind(self) -> IntKind
        ensures { result ≡ meaning.kind_of_words (words_seen self) }
    {
        if self.has_bool {
            IntKind::Bool
        } else if self.has_char {
            self.char_kind()
        } else if self.has_short {
            self.with_sign(IntKind::Short, IntKind::UShort)
        } else if self.longs > 1 {
            self.with_sign(IntKind::LLong, IntKind::ULLong)
        } else if self.longs > 0 {
            self.with_sign(IntKind::Long, IntKind::ULong)
        } else {
            self.with_sign(IntKind::Int, IntKind::UInt)
        }
    }
}

/// The words among children. They come to the same in whatever order they stand, so they are added from the last one on.
pub fn words_of(unit: &Unit, children: &TagList) -> Words
    requires { unit.now.first ≡ 0 }
    ensures { words_seen result ≡ meaning.words_of (nodes_of unit.now) (handles_of children.now) }
{
    let mut words = Words::none();
    let mut rest = children.iter();
    'children: while let Some((child, _)) = rest.next_back() {
        words.add(kind_at(unit, child));
    }
    words
}
