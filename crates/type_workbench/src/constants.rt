// Nodes of a unit under commands, and the constant of each.
ghost use Rattle.std.specs.Prelude.{◌≡◌, ◌^◌, ◌<◌, ◌++◌, ◌∷◌, [], IfOk, IfSome, length};
ghost use Rattle.type_workbench.specs.Folding.{AreHandlesIn, IsFolding, IsHandleIn};

use crate::constant_words::{Chain, Verb, verb_of};
use crate::shown_types::kind_word;
use crate::types::Session;
use crate::words::word_of;
use c_tokens::{Names, Token, lex};
use c_tree::{Handle, Node, Unit};
use c_types::{NodeType, NodeTypes, NodeValue, Outline, Types, bits, has_sign};
use const_fold::{Folded, fold};
use itoa::Buffer;
use sparse_model::{IntConst, IntKind, NameId, NodeKind, TypeId};
use std::alloc::{AllocError, Global};
use tag_list::TagList;

/// The handle that no node has: what isn't an enumerator is named so.
const NO_HANDLE: u64 = u64::MAX;

/// What the next node is besides its kind.
#[derive(Clone, Copy)]
struct Next {
    of: TypeId,
    fouled: bool,
    width: Option<u32>,
    /// The name that it holds.
    name: NameId,
    /// Its constant, where it isn't folded.
    given: Option<u64>,
}

/// A unit that is built, what is kept of its nodes, and those that are no part of another one yet, the last one at the end.
#[derive(Drop)]
struct Folding {
    alloc: Global,
    types: Types,
    /// The types that were made.
    named: Vec<TypeId>,
    unit: Unit,
    kept: NodeTypes,
    made: Vec<Handle>,
    next: Next,
    last: Folded,
    shown: Vec<u8>,
}

/// The answers to commands. Those before the word `nodes` make types, as the tool `types` does; those behind it make nodes, each of
/// the last ones, and fold each.
///
/// The word of a kind, or `of_N` for the type that was made with number N, tells the type of the next nodes; `fouled`, `width_N` for
/// a bit-field and `member_N`, which is the name of a member, tell of the next one alone. `literal_N`, `character_N`, `object`, `string`,
/// `type_name`, `dot` and `named_N`, which names the node with handle N, are nodes without parts; other words are told in
/// `constant_words.rt`. `enumerator` has the constant of its value. `show` tells the constant of the last node. `sums_N`, `ands_N`,
/// `arms_N`, `parentheses_N` and `enumerators_N` go on so many times with `.. + 1`, `.. && 1`, `0 ? 2 : ..`, `( .. )` and an
/// enumerator that is one more than the last.
pub fn constant_answers(alloc: Global, text: &[u8]) -> Result<Vec<u8>, AllocError>
    requires { length text.now < 2 ^ 30 }
{
    let mut names = Names::new(alloc)?;
    let Ok(tokens) = lex(alloc, &mut names, 1, text) else {
        return Err(AllocError);
    };
    let Session { types, made, .. } = types_of(alloc, &names, tokens.as_slice())?;
    let mut folding = Folding::new(alloc, types, made);
    folding.run(&names, tokens.as_slice())?;
    Ok(folding.shown)
}

// The types that words before `nodes` make.
fn types_of(alloc: Global, names: &Names, tokens: &[Token]) -> Result<Session, AllocError> {
    let mut session = Session::new(alloc)?;
    for token in tokens {
        let word = word_of(names, token.name);
        if word == b"nodes".as_slice() {
            return Ok(session);
        }
        session.command(word, token.name)?;
    }
    Ok(session)
}

impl Folding {
    fn new(alloc: Global, types: Types, named: Vec<TypeId>) -> Folding
        ensures { IsFolding result.types result.unit result.kept }
    {
        Folding {
            alloc,
            types,
            named,
            unit: Unit::new(alloc),
            kept: NodeTypes::new(alloc),
            made: Vec::new(alloc),
            next: Next {
                of: TypeId(0),
                fouled: false,
                width: None,
                name: NameId(0),
                given: None,
            },
            last: Folded::NotConstant,
            shown: Vec::new(alloc),
        }
    }

    // Does what the words behind `nodes` say.
    fn run(&mut self, names: &Names, tokens: &[Token]) -> Result<(), AllocError>
        requires { IsFolding self.old.types self.old.unit self.old.kept }
    {
        let mut begun = false;
        'tokens: for token in tokens {
            let word = word_of(names, token.name);
            if begun {
                self.command(word, token.name)?;
            }
            begun = begun || word == b"nodes".as_slice();
        }
        Ok(())
    }

    // Does what a word says.
    fn command(&mut self, word: &[u8], name: NameId) -> Result<(), AllocError>
        requires { IsFolding self.old.types self.old.unit self.old.kept }
        ensures { IsFolding self.new.types self.new.unit self.new.kept }
    {
        match verb_of(word) {
            Some((Verb::Of(kind), _)) => self.tell_kind(kind),
            Some((Verb::OfNumber, number)) => self.tell_type(number),
            Some((Verb::Fouled, _)) => self.tell(Next {
                fouled: true,
                ..self.next
            }),
            Some((Verb::Width, number)) => self.tell(Next {
                width: u32::try_from(number).ok(),
                ..self.next
            }),
            Some((Verb::Member, _)) => self.tell(Next { name, ..self.next }),
            Some((Verb::Show, _)) => self.show(),
            Some((Verb::Go(chain), number)) => self.go_on(chain, number),
            Some((verb, number)) => self.make(verb, number),
            None => self.refuse(),
        }
    }

    // Makes a node.
    fn make(&mut self, verb: Verb, number: u64) -> Result<(), AllocError>
        requires { IsFolding self.old.types self.old.unit self.old.kept }
        ensures { IsFolding self.new.types self.new.unit self.new.kept }
    {
        match verb {
            Verb::Leaf(kind) => self.add_leaf(kind, number),
            Verb::Object => self.add_leaf(NodeKind::Name, NO_HANDLE),
            Verb::Literal => self.add_literal(number),
            Verb::Character => self.add_leaf(NodeKind::CharacterConstant(IntKind::Int), number),
            Verb::One(kind) => self.add_one(kind),
            Verb::Two(kind) => self.add_two(kind),
            Verb::Three(kind) => self.add_three(kind),
            Verb::Enumerator => self.add_enumerator(),
            _ => self.refuse(),
        }
    }

    fn tell(&mut self, next: Next) -> Result<(), AllocError>
        requires { IsFolding self.old.types self.old.unit self.old.kept }
        ensures { IsFolding self.new.types self.new.unit self.new.kept }
    {
        self.next = next;
        Ok(())
    }

    // The first type that was made of a kind.
    fn tell_kind(&mut self, kind: IntKind) -> Result<(), AllocError>
        requires { IsFolding self.old.types self.old.unit self.old.kept }
        ensures { IsFolding self.new.types self.new.unit self.new.kept }
    {
        match self.of_kind(kind) {
            Some(of) => self.tell(Next { of, ..self.next }),
            None => self.refuse(),
        }
    }

    fn of_kind(&self, kind: IntKind) -> Option<TypeId> {
        for &of in &self.named {
            if self.types.knows(of) && self.types.outline(of) == Outline::Integer(kind) {
                return Some(of);
            }
        }
        None
    }

    fn tell_type(&mut self, number: u64) -> Result<(), AllocError>
        requires { IsFolding self.old.types self.old.unit self.old.kept }
        ensures { IsFolding self.new.types self.new.unit self.new.kept }
    {
        match self.named.get(number as usize).copied() {
            Some(of) => self.tell(Next { of, ..self.next }),
            None => self.refuse(),
        }
    }

    // The last node that is no part of another one, which is taken.
    fn take(&mut self) -> Option<Handle>
        requires { IsFolding self.old.types self.old.unit self.old.kept }
        ensures made { IfSome result (IsHandleIn self.new.unit) }
        ensures few { IfSome result (λ handle. handle < 2 ^ 30) }
        ensures unit { self.new.unit ≡ self.old.unit }
        ensures folding { IsFolding self.new.types self.new.unit self.new.kept }
    {
        let last = self.made.pop()?;
        if last < self.unit.len() {
            Some(last)
        } else {
            None
        }
    }

    // Adds a node with these parts, and folds it.
    fn add(&mut self, kind: NodeKind, number: u64, children: TagList) -> Result<(), AllocError>
        requires folding { IsFolding self.old.types self.old.unit self.old.kept }
        requires children { AreHandlesIn self.old.unit children }
        ensures { IsFolding self.new.types self.new.unit self.new.kept }
    {
        let node = Node {
            kind,
            token: 0,
            name: self.next.name,
            number,
            children,
        };
        let Ok(handle) = self.unit.add(node) else {
            return Err(AllocError);
        };
        self.last = fold(&self.unit, &self.types, &self.kept, handle);
        self.keep(handle)
    }

    // Keeps what is known of a node that was folded.
    fn keep(&mut self, handle: Handle) -> Result<(), AllocError>
        requires { IsFolding self.old.types self.old.unit self.old.kept }
        ensures { IsFolding self.new.types self.new.unit self.new.kept }
    {
        let Next {
            of,
            fouled,
            width,
            given,
            ..
        } = self.next;
        if !self.types.knows(of) {
            return Err(AllocError);
        }
        let constant = given.or(bits_in(self.last));
        let value = NodeValue {
            fouled,
            width,
            constant,
        };
        if self.kept.push(Some(NodeType { of, value })).is_err() {
            return Err(AllocError);
        }
        self.next = Next {
            of,
            fouled: false,
            width: None,
            name: NameId(0),
            given: None,
        };
        self.made.push(handle)?;
        Ok(())
    }

    fn add_leaf(&mut self, kind: NodeKind, number: u64) -> Result<(), AllocError>
        requires { IsFolding self.old.types self.old.unit self.old.kept }
        ensures { IsFolding self.new.types self.new.unit self.new.kept }
    {
        let none = TagList::new(self.alloc);
        self.add(kind, number, none)
    }

    // A literal of the type that was told.
    fn add_literal(&mut self, number: u64) -> Result<(), AllocError>
        requires { IsFolding self.old.types self.old.unit self.old.kept }
        ensures { IsFolding self.new.types self.new.unit self.new.kept }
    {
        if !self.types.knows(self.next.of) {
            return self.refuse();
        }
        match self.types.outline(self.next.of) {
            Outline::Integer(kind) => self.add_leaf(NodeKind::IntegerConstant(kind), number),
            _ => self.refuse(),
        }
    }

    fn add_one(&mut self, kind: NodeKind) -> Result<(), AllocError>
        requires { IsFolding self.old.types self.old.unit self.old.kept }
        ensures { IsFolding self.new.types self.new.unit self.new.kept }
    {
        match self.take() {
            Some(only) => {
                let children = with_part(TagList::new(self.alloc), only)?;
                self.add(kind, 0, children)
            }
            None => self.refuse(),
        }
    }

    fn add_two(&mut self, kind: NodeKind) -> Result<(), AllocError>
        requires { IsFolding self.old.types self.old.unit self.old.kept }
        ensures { IsFolding self.new.types self.new.unit self.new.kept }
    {
        let (Some(right), Some(left)) = (self.take(), self.take()) else {
            return self.refuse();
        };
        let children = with_part(with_part(TagList::new(self.alloc), left)?, right)?;
        self.add(kind, 0, children)
    }

    fn add_three(&mut self, kind: NodeKind) -> Result<(), AllocError>
        requires { IsFolding self.old.types self.old.unit self.old.kept }
        ensures { IsFolding self.new.types self.new.unit self.new.kept }
    {
        let (Some(third), Some(second), Some(first)) = (self.take(), self.take(), self.take())
        else {
            return self.refuse();
        };
        let two = with_part(with_part(TagList::new(self.alloc), first)?, second)?;
        let children = with_part(two, third)?;
        self.add(kind, 0, children)
    }

    // An enumerator with the constant of its value.
    fn add_enumerator(&mut self) -> Result<(), AllocError>
        requires { IsFolding self.old.types self.old.unit self.old.kept }
        ensures { IsFolding self.new.types self.new.unit self.new.kept }
    {
        self.next.given = bits_in(self.last);
        self.add_one(NodeKind::Enumerator)
    }

    // So many times one more of a chain.
    fn go_on(&mut self, chain: Chain, number: u64) -> Result<(), AllocError>
        requires { IsFolding self.old.types self.old.unit self.old.kept }
        ensures { IsFolding self.new.types self.new.unit self.new.kept }
    {
        'times: for _ in 0..number {
            self.add_link(chain)?;
        }
        Ok(())
    }

    fn add_link(&mut self, chain: Chain) -> Result<(), AllocError>
        requires { IsFolding self.old.types self.old.unit self.old.kept }
        ensures { IsFolding self.new.types self.new.unit self.new.kept }
    {
        match chain {
            Chain::Sums => {
                self.add_literal(1)?;
                self.add_two(NodeKind::Addition)
            }
            Chain::Ands => {
                self.add_literal(1)?;
                self.add_two(NodeKind::LogicalAnd)
            }
            Chain::Arms => self.add_arms(),
            Chain::Parentheses => self.add_one(NodeKind::Parenthesized),
            Chain::Enumerators => self.add_next_enumerator(),
        }
    }

    // `0 ? 2 : ` before the last node.
    fn add_arms(&mut self) -> Result<(), AllocError>
        requires { IsFolding self.old.types self.old.unit self.old.kept }
        ensures { IsFolding self.new.types self.new.unit self.new.kept }
    {
        self.add_literal(0)?;
        self.add_literal(2)?;
        let (Some(second), Some(first), Some(third)) = (self.take(), self.take(), self.take())
        else {
            return self.refuse();
        };
        let two = with_part(with_part(TagList::new(self.alloc), first)?, second)?;
        let children = with_part(two, third)?;
        self.add(NodeKind::Conditional, 0, children)
    }

    // An enumerator that is one more than the last node, which is one.
    fn add_next_enumerator(&mut self) -> Result<(), AllocError>
        requires { IsFolding self.old.types self.old.unit self.old.kept }
        ensures { IsFolding self.new.types self.new.unit self.new.kept }
    {
        let Some(before) = self.take() else {
            return self.refuse();
        };
        self.add_leaf(NodeKind::Name, u64::from(before))?;
        self.add_literal(1)?;
        self.add_two(NodeKind::Addition)?;
        self.add_enumerator()
    }

    // Says the constant of the last node.
    fn show(&mut self) -> Result<(), AllocError>
        requires { IsFolding self.old.types self.old.unit self.old.kept }
        ensures { IsFolding self.new.types self.new.unit self.new.kept }
    {
        match self.last {
            Folded::Value(constant) => push_constant(&mut self.shown, constant),
            Folded::NotConstant => self.shown.extend_from_slice(b"none\n"),
        }
    }

    fn refuse(&mut self) -> Result<(), AllocError>
        requires { IsFolding self.old.types self.old.unit self.old.kept }
        ensures { IsFolding self.new.types self.new.unit self.new.kept }
    {
        self.shown.extend_from_slice(b"refused\n")
    }
}

// A list of parts with one more.
fn with_part(mut children: TagList, part: Handle) -> Result<TagList, AllocError>
    requires part { part < 2 ^ 30 }
    requires few { length children < 2 ^ 30 }
    ensures { IfOk result (λ made. made ≡ children ++ (part, 0) ∷ []) }
{
    children.push(part, 0)?;
    Ok(children)
}

fn bits_in(folded: Folded) -> Option<u64> {
    match folded {
        Folded::Value(constant) => Some(constant.bits),
        Folded::NotConstant => None,
    }
}

// The kind, and the number as it has it: a fouled one may be below 0 in an unsigned kind.
fn push_constant(shown: &mut Vec<u8>, constant: IntConst) -> Result<(), AllocError> {
    let IntConst { kind, bits: number } = constant;
    shown.extend_from_slice(kind_word(kind))?;
    shown.push(b' ')?;
    let mut buffer = Buffer::new();
    if has_sign(kind) || (bits(kind) < 64 && number > u64::from(u32::MAX)) {
        shown.extend_from_slice(buffer.format(number.cast_signed()).as_bytes())?;
    } else {
        shown.extend_from_slice(buffer.format(number).as_bytes())?;
    }
    shown.extend_from_slice(b"\n")
}
