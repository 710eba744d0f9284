// Attributes as values. How they are written isn't known here.
ghost use Rattle.std.specs.Prelude.{◌≡◌};
ghost use Rattle.meaning_attributes.specs.Attributes.{larger};

use sparse_model::{ContextEntry, ContextList, Space};
use std::alloc::Global;

/// An attribute of which no arguments are looked at.
#[derive(Clone, Copy, Debug, PartialEq, Eq)]
pub enum Flag {
    Noderef,
    Bitwise,
    Force,
    Packed,
    Noreturn,
}

/// An attribute that means something.
#[derive(Clone, Copy, Debug, PartialEq, Eq)]
pub enum Attribute {
    Space(Space),
    Context(ContextEntry),
    /// A power of 2 up to 65536.
    Align(u32),
    Flag(Flag),
}

/// What the attributes that were read so far come to.
#[derive(Drop)]
pub struct Attrs {
    /// That of the last one.
    pub space: Space,
    pub noderef: bool,
    pub bitwise: bool,
    pub force: bool,
    /// In the order in which they stand.
    pub contexts: ContextList,
    pub packed: bool,
    /// The largest one.
    pub align: Option<u32>,
    pub noreturn: bool,
}

impl Attrs {
    ghost use Rattle.std.specs.Prelude.{◌≡◌, List, ℕ};
    ghost use Rattle.meaning_attributes.specs.Attributes.{no_attributes, with_attribute, with_flag};
    ghost use Rattle.c_attrs.specs.Seen.{attribute_seen, attrs_seen, flag_seen};
    ghost use Rattle.c_attrs.specs.Parts.{replacing_contexts};

    /// No attribute. It takes no memory.
    pub fn new(alloc: Global) -> Attrs
        ensures { (names : List (List ℕ)) → attrs_seen names result ≡ no_attributes }
    {
        Attrs {
            space: Space::None,
            noderef: false,
            bitwise: false,
            force: false,
            contexts: ContextList::new(alloc),
            packed: false,
            align: None,
            noreturn: false,
        }
    }

    // Sets what an attribute says, but for contexts, which take memory.
    pub(crate) fn set(&mut self, attribute: Attribute)
        ensures set { (names : List (List ℕ)) → attrs_seen names self.new
            ≡ replacing_contexts (with_attribute (attrs_seen names self.old) (attribute_seen names attribute)) (attrs_seen names self.old).contexts }
        ensures contexts { self.new.contexts ≡ self.old.contexts }
    {
        match attribute {
            Attribute::Space(space) => self.space = space,
            Attribute::Context(_) => {}
            Attribute::Align(align) => self.align = Some(larger(self.align, align)),
            Attribute::Flag(flag) => self.set_flag(flag),
        }
    }

    fn set_flag(&mut self, flag: Flag)
        ensures set { (names : List (List ℕ)) → attrs_seen names self.new ≡ with_flag (attrs_seen names self.old) (flag_seen flag) }
        ensures contexts { self.new.contexts ≡ self.old.contexts }
    {
        match flag {
            Flag::Noderef => self.noderef = true,
            Flag::Bitwise => self.bitwise = true,
            Flag::Force => self.force = true,
            Flag::Packed => self.packed = true,
            Flag::Noreturn => self.noreturn = true,
        }
    }
}

// The larger of two alignments, of which there may be only one.
fn larger(before: Option<u32>, align: u32) -> u32
    ensures { result ≡ larger before align }
{
    match before {
        Some(other) => other.max(align),
        None => align,
    }
}
