// Commands on types, and what they answer, each in a line.
ghost use Rattle.std.specs.Prelude.{◌^◌, ◌<◌, ◌≡◌, List, All, IfOk, IfSome, length};
ghost use Rattle.meaning_types.specs.Types.{TypeTree};
ghost use Rattle.c_types.specs.Table.{IsShapeOver, IsTypeId, types_in};

use crate::extents::{push_extent, push_layout};
use crate::shown_types::{push_base, push_marks};
use crate::words::word_of;
use c_layout::size_of;
use c_tokens::{Names, lex};
use c_types::{
    AggregateBody, Member, MemberList, Named, OuterBase, ShapeBase, TypeIdList, TypeShape, Types,
};
use itoa::Buffer;
use sparse_model::{IntKind, NameId, Restrict, Space, TypeId};
use std::alloc::{AllocError, Global};
use std::str;

/// Qualifiers and flags that wait for the next type.
#[derive(Clone, Copy)]
pub struct Waiting {
    pub is_const: bool,
    pub is_volatile: bool,
    pub noderef: bool,
    pub space: Space,
}

const NONE_WAITING: Waiting = Waiting {
    is_const: false,
    is_volatile: false,
    noderef: false,
    space: Space::None,
};

/// What is written at the next member, or at the next aggregate that is told.
#[derive(Clone, Copy)]
pub struct Written {
    packed: bool,
    /// The alignment, or 1.
    align: u32,
}

const NOTHING_WRITTEN: Written = Written {
    packed: false,
    align: 1,
};

/// Types under commands: those that were made and not taken yet, the last one at the end, the members that
/// no aggregate has yet, and what was answered.
#[derive(Drop)]
pub struct Session {
    pub alloc: Global,
    pub types: Types,
    pub made: Vec<TypeId>,
    pub members: Vec<Member>,
    pub waiting: Waiting,
    pub written: Written,
    // the word of the command that is done
    pub word: NameId,
    pub shown: Vec<u8>,
}

/// The answers to commands, which take types from those that were made last and leave what they make.
///
/// `const`, `volatile`, `noderef` and `space_N` mark the next type that is made. `void`, a word of a kind as
/// `unsigned_short`, `restricted_N` and `restricted_unsigned_N` over unsigned short and unsigned, `struct_N` and
/// `union_N` make a type; `pointer`, `array_N`, `open`,
/// `function_N` and `variadic_N` make one of the last ones, a function of its result and N parameters behind
/// it, the last one first. `again` leaves the last one once more, `drop` takes it. `pointers_N`, `arrays_N`,
/// `functions_N` and `wide_functions_N` do so N times, with arrays of 1, and functions of two pointers or of 255;
/// `agains_N`, `members_N` and `structs_N` leave the last one, take it as a member and tell structures of the members so far N times.
///
/// `target`, `parameter_N`, `promote`, `usual` and `composite` leave the type that they tell; `same` and `show`
/// say what they find, and `tree` whether the whole type was made as a tree. `member`, `field_W` and `unnamed_W`
/// take the last one as a member, of W bits, with their own word as its name or without one, and `complete_N` tells
/// those so far; `aligned_N` is written at the next member or the next aggregate that is told, and `packed` at the
/// aggregate. `body_N` says how many members an aggregate has, `layout` where they lie, and `extent` what a type
/// takes, as `extents_N` after N look-ups. `tag_N` gives its own word as a name, and `named_N` says whether there is one. A command that misses
/// something is `refused`.
pub fn type_answers(alloc: Global, text: &[u8]) -> Result<Vec<u8>, AllocError>
    requires { length text.now < 2 ^ 30 }
{
    let mut names = Names::new(alloc)?;
    let Ok(tokens) = lex(alloc, &mut names, 1, text) else {
        return Err(AllocError);
    };
    let mut session = Session::new(alloc)?;
    for token in tokens.as_slice() {
        session.command(word_of(&names, token.name), token.name)?;
    }
    Ok(session.shown)
}

impl Session {
    /// The types of integers, and none made yet.
    pub fn new(alloc: Global) -> Result<Session, AllocError> {
        Ok(Session {
            alloc,
            types: Types::new(alloc)?,
            made: Vec::new(alloc),
            members: Vec::new(alloc),
            waiting: NONE_WAITING,
            written: NOTHING_WRITTEN,
            word: NameId(0),
            shown: Vec::new(alloc),
        })
    }

    /// Does what a word says.
    pub fn command(&mut self, word: &[u8], name: NameId) -> Result<(), AllocError> {
        if let Some(base) = leaf(word) {
            return self.make(base);
        }
        self.word = name;
        let (stem, length) = numbered(word).unwrap_or((word, 0));
        if stem == b"array".as_slice() {
            return self.make_array(Some(length));
        }
        match u32::try_from(length) {
            Ok(number) => self.command_with(stem, number),
            Err(_) => self.refuse(),
        }
    }

    // Does what a word says with the number behind it, where that is no length.
    fn command_with(&mut self, stem: &[u8], number: u32) -> Result<(), AllocError> {
        match verb_of(stem) {
            Some(Verb::Mark(mark)) => {
                self.waiting = mark.added_to(self.waiting, number);
                Ok(())
            }
            Some(Verb::Repeated(made)) => self.make_often(made, number),
            Some(Verb::Made(made)) => self.make_next(made, number),
            Some(Verb::Asked(asked)) => self.ask(asked, number),
            Some(Verb::Written(what)) => {
                self.written = what.added_to(self.written, number);
                Ok(())
            }
            Some(Verb::Tag) => self.types.set_name(Named::Tag(number), self.word),
            None => self.refuse(),
        }
    }

    // Does so many times what a word says.
    fn make_often(&mut self, made: Made, count: u32) -> Result<(), AllocError> {
        for number in 0..count {
            self.make_next(made, made.number(number))?;
        }
        Ok(())
    }

    // Makes something of the last types.
    fn make_next(&mut self, made: Made, number: u32) -> Result<(), AllocError> {
        match made {
            Made::Pointer => self.make_pointer(),
            Made::Open => self.make_array(None),
            Made::Array => self.make_array(Some(u64::from(number))),
            Made::Function => self.make_function(number, false),
            Made::Variadic => self.make_function(number, true),
            Made::FunctionOfPointers => self.make_function_of_pointers(2),
            Made::WideFunction => self.make_function_of_pointers(255),
            Made::Again => self.again(),
            Made::Nothing => self.drop_last(),
            Made::Member => self.add_member(Some(self.word), None),
            Made::MemberAgain => self.add_again(),
            Made::Field => self.add_member(Some(self.word), Some(number)),
            Made::Unnamed => self.add_member(None, Some(number)),
            Made::Complete => self.complete(number),
            Made::Structure => self.make_structure(number),
        }
    }

    // Asks something of the last types.
    fn ask(&mut self, asked: Asks, number: u32) -> Result<(), AllocError> {
        match asked {
            Asks::Same => self.ask_same(),
            Asks::Show => self.show(),
            Asks::Target => self.ask_target(),
            Asks::Tree => self.ask_tree(),
            Asks::Promoted => self.ask_promoted(),
            Asks::Usual => self.ask_usual(),
            Asks::Composite => self.ask_composite(),
            Asks::Parameter => self.ask_parameter(number),
            Asks::Body => self.ask_body(number),
            Asks::Extent => self.ask_extent(),
            Asks::Extents => self.ask_extents(number),
            Asks::Layout => self.ask_layout(),
            Asks::Name => self.ask_name(number),
        }
    }

    /// The last type, which is taken.
    pub fn take(&mut self) -> Option<TypeId>
        ensures known { IfSome result (IsTypeId self.new.types) }
        ensures same { self.new.types ≡ self.old.types }
    {
        let last = self.made.pop()?;
        if self.types.knows(last) {
            Some(last)
        } else {
            None
        }
    }

    /// Makes a type, with the marks that wait.
    pub fn make(&mut self, base: ShapeBase) -> Result<(), AllocError>
        requires { IsShapeOver (types_in self.old.types) base }
    {
        let waiting = self.waiting;
        self.waiting = NONE_WAITING;
        let made = self.types.make(TypeShape {
            base,
            is_const: waiting.is_const,
            is_volatile: waiting.is_volatile,
            noderef: waiting.noderef,
            space: waiting.space,
        })?;
        self.made.push(made)?;
        Ok(())
    }

    fn make_pointer(&mut self) -> Result<(), AllocError> {
        match self.take() {
            Some(target) => self.make(ShapeBase::Pointer(target)),
            None => self.refuse(),
        }
    }

    fn make_array(&mut self, count: Option<u64>) -> Result<(), AllocError> {
        match self.take() {
            Some(element) => self.make(ShapeBase::Array(element, count)),
            None => self.refuse(),
        }
    }

    fn make_function(&mut self, count: u32, variadic: bool) -> Result<(), AllocError> {
        let Some(parameters) = self.take_parameters(count)? else {
            return self.refuse();
        };
        match self.take() {
            Some(answer) => self.make(ShapeBase::Function(answer, parameters, variadic)),
            None => self.refuse(),
        }
    }

    // A function that takes so many pointers to the last type, and gives one.
    fn make_function_of_pointers(&mut self, count: u32) -> Result<(), AllocError> {
        self.make_pointer()?;
        for _ in 0..count {
            self.again()?;
        }
        self.make_function(count, false)
    }

    // So many of the last types, the last one first.
    fn take_parameters(&mut self, count: u32) -> Result<Option<TypeIdList>, AllocError>
        ensures known { IfOk result (λ taken. IfSome taken (All (IsTypeId self.new.types))) }
        ensures same { self.new.types ≡ self.old.types }
    {
        let mut parameters = Vec::new(self.alloc);
        'parameters: for _ in 0..count {
            let Some(parameter) = self.take() else {
                return Ok(None);
            };
            parameters.push(parameter)?;
        }
        Ok(Some(TypeIdList::from_vec(parameters)))
    }

    fn again(&mut self) -> Result<(), AllocError> {
        match self.made.last().copied() {
            Some(last) => {
                self.made.push(last)?;
                Ok(())
            }
            None => self.refuse(),
        }
    }

    fn drop_last(&mut self) -> Result<(), AllocError> {
        let _dropped = self.made.pop();
        Ok(())
    }

    // The last type becomes a member, and stays.
    fn add_again(&mut self) -> Result<(), AllocError> {
        self.again()?;
        self.add_member(Some(self.word), None)
    }

    // A structure of the members so far.
    fn make_structure(&mut self, number: u32) -> Result<(), AllocError> {
        self.make(ShapeBase::Aggregate(number, false))?;
        self.complete(number)
    }

    fn ask_same(&mut self) -> Result<(), AllocError> {
        let (Some(second), Some(first)) = (self.take(), self.take()) else {
            return self.refuse();
        };
        if self.types.same(first, second) {
            self.shown.extend_from_slice(b"same\n")
        } else {
            self.shown.extend_from_slice(b"different\n")
        }
    }

    fn ask_target(&mut self) -> Result<(), AllocError> {
        let Some(pointer) = self.take() else {
            return self.refuse();
        };
        match self.types.target(pointer) {
            Some(target) => {
                self.made.push(target)?;
                Ok(())
            }
            None => self.shown.extend_from_slice(b"no pointer\n"),
        }
    }

    fn ask_tree(&mut self) -> Result<(), AllocError> {
        let Some(last) = self.take() else {
            return self.refuse();
        };
        match self.types.tree(self.alloc, last) {
            Ok(_tree) => self.shown.extend_from_slice(b"a tree\n"),
            Err(_) => self.shown.extend_from_slice(b"no tree\n"),
        }
    }

    fn ask_promoted(&mut self) -> Result<(), AllocError> {
        let Some(integer) = self.take() else {
            return self.refuse();
        };
        if !self.types.is_integer(integer) {
            return self.refuse();
        }
        self.made.push(self.types.promote(integer))?;
        Ok(())
    }

    fn ask_usual(&mut self) -> Result<(), AllocError> {
        let (Some(second), Some(first)) = (self.take(), self.take()) else {
            return self.refuse();
        };
        if !self.types.is_integer(first) || !self.types.is_integer(second) {
            return self.refuse();
        }
        self.made.push(self.types.usual(first, second))?;
        Ok(())
    }

    fn ask_composite(&mut self) -> Result<(), AllocError> {
        let (Some(second), Some(first)) = (self.take(), self.take()) else {
            return self.refuse();
        };
        match self.types.composite(first, second)? {
            Some(one) => {
                self.made.push(one)?;
                Ok(())
            }
            None => self.shown.extend_from_slice(b"no composite\n"),
        }
    }

    fn ask_parameter(&mut self, place: u32) -> Result<(), AllocError> {
        let Some(function) = self.take() else {
            return self.refuse();
        };
        let OuterBase::Function(_, count, _) = self.types.shape(function).base else {
            return self.refuse();
        };
        if place >= count {
            return self.refuse();
        }
        self.made.push(self.types.parameter(function, place))?;
        Ok(())
    }

    fn add_member(&mut self, name: Option<NameId>, width: Option<u32>) -> Result<(), AllocError> {
        let align = self.take_written().align;
        match self.take() {
            Some(of) => {
                self.members.push(Member {
                    name,
                    of,
                    width,
                    align,
                })?;
                Ok(())
            }
            None => self.refuse(),
        }
    }

    // What was written for what is made now.
    fn take_written(&mut self) -> Written
        ensures { self.new.types ≡ self.old.types }
    {
        let written = self.written;
        self.written = NOTHING_WRITTEN;
        written
    }

    // Tells the members so far, if they weren't told.
    fn complete(&mut self, aggregate: u32) -> Result<(), AllocError> {
        let written = self.take_written();
        let Some(members) = self.known_members()? else {
            return self.refuse();
        };
        if self.types.body(aggregate).is_some() {
            return self.refuse();
        }
        self.types.complete(
            aggregate,
            AggregateBody {
                members,
                packed: written.packed,
                align: written.align,
            },
        )?;
        self.members.clear();
        Ok(())
    }

    // The members so far, whose types are all of the table.
    fn known_members(&self) -> Result<Option<MemberList>, AllocError>
        ensures { IfOk result (λ found. IfSome found (All (λ member. IsTypeId self.now.types member.of))) }
    {
        let mut members = Vec::new(self.alloc);
        'members: for &member in &self.members {
            if !self.types.knows(member.of) {
                return Ok(None);
            }
            members.push(member)?;
        }
        Ok(Some(MemberList::from_vec(members)))
    }

    fn ask_body(&mut self, aggregate: u32) -> Result<(), AllocError> {
        let Some(body) = self.types.body(aggregate) else {
            return self.shown.extend_from_slice(b"no body\n");
        };
        let mut buffer = Buffer::new();
        self.shown
            .extend_from_slice(buffer.format(body.members.len()).as_bytes())?;
        self.shown.extend_from_slice(b" members\n")
    }

    // What the last type takes.
    fn ask_extent(&mut self) -> Result<(), AllocError> {
        match self.take() {
            Some(last) => push_extent(&mut self.shown, &self.types, last),
            None => self.refuse(),
        }
    }

    // Asks what the last type takes so many times, and says it once.
    fn ask_extents(&mut self, count: u32) -> Result<(), AllocError> {
        for _ in 1..count {
            self.again()?;
            let Some(last) = self.take() else {
                return self.refuse();
            };
            if size_of(&self.types, last).is_err() {
                return self.refuse();
            }
        }
        self.ask_extent()
    }

    // What the last type takes, and where its members lie.
    fn ask_layout(&mut self) -> Result<(), AllocError> {
        match self.take() {
            Some(last) => push_layout(&mut self.shown, &self.types, last),
            None => self.refuse(),
        }
    }

    fn ask_name(&mut self, number: u32) -> Result<(), AllocError> {
        match self.types.name(Named::Tag(number)) {
            Some(_) => self.shown.extend_from_slice(b"named\n"),
            None => self.shown.extend_from_slice(b"no name\n"),
        }
    }

    // Says the outermost level of the last type.
    fn show(&mut self) -> Result<(), AllocError> {
        let Some(last) = self.take() else {
            return self.refuse();
        };
        let outer = self.types.shape(last);
        push_marks(&mut self.shown, outer)?;
        push_base(&mut self.shown, outer.base)?;
        self.shown.push(b'\n')?;
        Ok(())
    }

    /// Says that a command missed something.
    pub fn refuse(&mut self) -> Result<(), AllocError> {
        self.shown.extend_from_slice(b"refused\n")
    }
}

/// A mark that the next type gets.
#[derive(Clone, Copy)]
enum Mark {
    Const,
    Volatile,
    Noderef,
    Space,
}

impl Mark {
    // The marks that wait, and this one.
    fn added_to(self, waiting: Waiting, number: u32) -> Waiting {
        match self {
            Mark::Const => Waiting {
                is_const: true,
                ..waiting
            },
            Mark::Volatile => Waiting {
                is_volatile: true,
                ..waiting
            },
            Mark::Noderef => Waiting {
                noderef: true,
                ..waiting
            },
            Mark::Space => Waiting {
                space: Space::Number(number),
                ..waiting
            },
        }
    }
}

/// What is made of the last types.
#[derive(Clone, Copy)]
enum Made {
    Pointer,
    Open,
    Array,
    Function,
    Variadic,
    FunctionOfPointers,
    WideFunction,
    Again,
    Nothing,
    Member,
    MemberAgain,
    Field,
    Unnamed,
    Complete,
    Structure,
}

impl Made {
    // The number with which it is made for this time: arrays that are made often have a length of 1.
    fn number(self, time: u32) -> u32 {
        match self {
            Made::Array => 1,
            _ => time,
        }
    }
}

/// What is asked of the last types, or of an aggregate.
#[derive(Clone, Copy)]
enum Asks {
    Same,
    Show,
    Target,
    Tree,
    Promoted,
    Usual,
    Composite,
    Parameter,
    Body,
    Extent,
    Extents,
    Layout,
    Name,
}

/// What is written at the next member, or at the next aggregate that is told.
#[derive(Clone, Copy)]
enum Writes {
    Packed,
    Aligned,
}

impl Writes {
    // What was written, and this.
    fn added_to(self, written: Written, number: u32) -> Written {
        match self {
            Writes::Packed => Written {
                packed: true,
                ..written
            },
            Writes::Aligned => Written {
                align: number,
                ..written
            },
        }
    }
}

/// What a word does.
#[derive(Clone, Copy)]
enum Verb {
    Mark(Mark),
    Written(Writes),
    Made(Made),
    Repeated(Made),
    Asked(Asks),
    Tag,
}

/// The words, each as far as a number stands behind it.
const VERBS: [(&[u8], Verb); 37] = [
    (b"const", Verb::Mark(Mark::Const)),
    (b"volatile", Verb::Mark(Mark::Volatile)),
    (b"noderef", Verb::Mark(Mark::Noderef)),
    (b"space", Verb::Mark(Mark::Space)),
    (b"pointer", Verb::Made(Made::Pointer)),
    (b"open", Verb::Made(Made::Open)),
    (b"function", Verb::Made(Made::Function)),
    (b"variadic", Verb::Made(Made::Variadic)),
    (b"again", Verb::Made(Made::Again)),
    (b"drop", Verb::Made(Made::Nothing)),
    (b"member", Verb::Made(Made::Member)),
    (b"field", Verb::Made(Made::Field)),
    (b"unnamed", Verb::Made(Made::Unnamed)),
    (b"packed", Verb::Written(Writes::Packed)),
    (b"aligned", Verb::Written(Writes::Aligned)),
    (b"complete", Verb::Made(Made::Complete)),
    (b"pointers", Verb::Repeated(Made::Pointer)),
    (b"arrays", Verb::Repeated(Made::Array)),
    (b"functions", Verb::Repeated(Made::FunctionOfPointers)),
    (b"wide_functions", Verb::Repeated(Made::WideFunction)),
    (b"agains", Verb::Repeated(Made::Again)),
    (b"members", Verb::Repeated(Made::MemberAgain)),
    (b"structs", Verb::Repeated(Made::Structure)),
    (b"same", Verb::Asked(Asks::Same)),
    (b"show", Verb::Asked(Asks::Show)),
    (b"target", Verb::Asked(Asks::Target)),
    (b"tree", Verb::Asked(Asks::Tree)),
    (b"promote", Verb::Asked(Asks::Promoted)),
    (b"usual", Verb::Asked(Asks::Usual)),
    (b"composite", Verb::Asked(Asks::Composite)),
    (b"parameter", Verb::Asked(Asks::Parameter)),
    (b"body", Verb::Asked(Asks::Body)),
    (b"extent", Verb::Asked(Asks::Extent)),
    (b"extents", Verb::Asked(Asks::Extents)),
    (b"layout", Verb::Asked(Asks::Layout)),
    (b"named", Verb::Asked(Asks::Name)),
    (b"tag", Verb::Tag),
];

fn verb_of(word: &[u8]) -> Option<Verb> {
    for (spelled, verb) in VERBS {
        if word == spelled {
            return Some(verb);
        }
    }
    None
}

// A word with a number behind its last underscore.
fn numbered(word: &[u8]) -> Option<(&[u8], u64)> {
    let place = word.iter().rposition(|&byte| byte == b'_')?;
    let (verb, digits) = word.split_at(place);
    let number = str::from_utf8(digits.get(1..)?).ok()?.parse::<u64>().ok()?;
    Some((verb, number))
}

// The base that a word makes of nothing.
fn leaf(word: &[u8]) -> Option<ShapeBase>
    ensures { IfSome result (λ base. (types : List TypeTree) → IsShapeOver types base) }
{
    if word == b"void".as_slice() {
        return Some(ShapeBase::Void);
    }
    if let Some(kind) = kind_of(word) {
        return Some(ShapeBase::Integer(kind, None));
    }
    let (verb, number) = numbered(word)?;
    let number = u32::try_from(number).ok()?;
    if verb == b"restricted".as_slice() {
        Some(ShapeBase::Integer(IntKind::UShort, Some(Restrict(number))))
    } else if verb == b"restricted_unsigned".as_slice() {
        Some(ShapeBase::Integer(IntKind::UInt, Some(Restrict(number))))
    } else if verb == b"struct".as_slice() {
        Some(ShapeBase::Aggregate(number, false))
    } else if verb == b"union".as_slice() {
        Some(ShapeBase::Aggregate(number, true))
    } else {
        None
    }
}

/// The words of kinds.
const KINDS: [(&[u8], IntKind); 12] = [
    (b"bool", IntKind::Bool),
    (b"char", IntKind::Char),
    (b"signed_char", IntKind::SChar),
    (b"unsigned_char", IntKind::UChar),
    (b"short", IntKind::Short),
    (b"unsigned_short", IntKind::UShort),
    (b"int", IntKind::Int),
    (b"unsigned", IntKind::UInt),
    (b"long", IntKind::Long),
    (b"unsigned_long", IntKind::ULong),
    (b"long_long", IntKind::LLong),
    (b"unsigned_long_long", IntKind::ULLong),
];

fn kind_of(word: &[u8]) -> Option<IntKind> {
    for (spelled, kind) in KINDS {
        if word == spelled {
            return Some(kind);
        }
    }
    None
}
