// Types, failures and errors under commands, and their texts.
use c_preproc::UnitTokens;
use c_tokens::Names;
use c_types::Named;
use sparse_model::{
    Class, ClassSet, ErrorKind, Failure, FailureList, NameId, Place, Restrict, RuleCode, Space,
};
use std::alloc::{AllocError, Global};
use type_workbench::{Session, with_number, word_of};
use warn_print::{Show, error_text, print_all, type_text, warning_text};

/// The id that no name has: it is spelled as nothing.
const NO_NAME: NameId = NameId(u32::MAX);

/// A failure of which nothing is told.
const NOTHING_TOLD: Failure = Failure {
    token: 0,
    rule: RuleCode::A1,
    part: 0,
    first: None,
    second: None,
    name: NO_NAME,
    number: 0,
    wanted: 0,
};

/// What a word wants of the one behind it.
#[derive(Clone, Copy)]
enum Wanted {
    /// To be the name that is told next.
    Name,
    /// To be a rule whose class is switched on, or off.
    Switch(bool),
}

/// Types under commands, the failures so far and what is told of the next one, and the classes that are on.
#[derive(Drop)]
struct Texts {
    session: Session,
    failures: FailureList,
    next: Failure,
    last: Failure,
    classes: ClassSet,
    wanted: Option<Wanted>,
}

/// The texts that commands ask for: the tokens of a unit behind the first one that is spelled `commands`. Those before it are
/// what failures and errors stand at.
///
/// Types are made as by the tool `types`. `called` tells the word behind it as a name, and `nameless` none; `named_space` marks
/// the next type with the space of that name, and `tag_is_N` and `identity_is_N` give it to a tag or an identity. `text` writes
/// the last type.
///
/// `at_N` tells a token, `part_N` a part, `number_N`, `minus_N` and `wanted_N` the two numbers, and `first` and `second` take the
/// last type. A rule, as `A1`, makes a failure of what was told; the next one is at the same token and has the same name.
/// `warning` writes the last failure, and `warnings` all so far in their order, and forgets them. `on` and `off` switch the class of
/// the rule behind them. `error_N` writes the error with this number at the token that was told, with the name.
pub(crate) fn texts_of(
    alloc: Global,
    names: &Names,
    unit: &UnitTokens,
) -> Result<Vec<u8>, AllocError> {
    let mut texts = Texts::new(alloc)?;
    let mut begun = false;
    for token in unit.tokens.as_slice() {
        let word = word_of(names, token.name);
        if begun {
            texts.command(names, unit, word, token.name)?;
        }
        begun = begun || word == b"commands".as_slice();
    }
    Ok(texts.session.shown)
}

impl Texts {
    fn new(alloc: Global) -> Result<Texts, AllocError> {
        Ok(Texts {
            session: Session::new(alloc)?,
            failures: FailureList::new(alloc),
            next: NOTHING_TOLD,
            last: NOTHING_TOLD,
            classes: ClassSet::new(alloc),
            wanted: None,
        })
    }

    // Does what a word says.
    fn command(
        &mut self,
        names: &Names,
        unit: &UnitTokens,
        word: &[u8],
        name: NameId,
    ) -> Result<(), AllocError> {
        match self.wanted {
            Some(wanted) => self.answer(wanted, word, name),
            None => match verb_of(word) {
                Some((verb, number)) => self.act(names, unit, verb, number),
                None => self.fail_or_make(word, name),
            },
        }
    }

    // Does with a word what was wanted.
    fn answer(&mut self, wanted: Wanted, word: &[u8], name: NameId) -> Result<(), AllocError> {
        self.wanted = None;
        match (wanted, rule_of(word)) {
            (Wanted::Name, _) => {
                self.next.name = name;
                Ok(())
            }
            (Wanted::Switch(on), Some(rule)) => self.switch(rule.class(), on),
            (Wanted::Switch(_), None) => self.session.refuse(),
        }
    }

    // A failure of a rule, or what the word says of types.
    fn fail_or_make(&mut self, word: &[u8], name: NameId) -> Result<(), AllocError> {
        match rule_of(word) {
            Some(rule) => self.fail(rule),
            None => self.session.command(word, name),
        }
    }

    // The classes that are on, with this one or without it.
    fn switch(&mut self, class: Class, on: bool) -> Result<(), AllocError> {
        let mut classes = Vec::new(self.session.alloc);
        for &other in self.classes.as_slice() {
            if other as u8 != class as u8 {
                classes.push(other)?;
            }
        }
        if on {
            classes.push(class)?;
        }
        self.classes = ClassSet::from_vec(classes);
        Ok(())
    }

    // A failure of what was told.
    fn fail(&mut self, rule: RuleCode) -> Result<(), AllocError> {
        let failure = Failure { rule, ..self.next };
        self.last = failure;
        self.next = Failure {
            token: failure.token,
            name: failure.name,
            ..NOTHING_TOLD
        };
        match self.failures.push(failure) {
            Ok(()) => Ok(()),
            Err((fault, _)) => Err(fault),
        }
    }

    fn act(
        &mut self,
        names: &Names,
        unit: &UnitTokens,
        verb: Verb,
        number: u32,
    ) -> Result<(), AllocError> {
        match verb {
            Verb::Tell(told) => {
                self.tell(told, number);
                Ok(())
            }
            Verb::Name(named) => self
                .session
                .types
                .set_name(named.with(number), self.next.name),
            Verb::Text => self.write_type(names, unit),
            Verb::Warning => self.write_last(names, unit),
            Verb::Warnings => self.write_all(names, unit),
            Verb::Error => self.write_error(names, unit, number),
        }
    }

    // What is told of the next failure.
    fn tell(&mut self, told: Told, number: u32) {
        match told {
            Told::Called => self.wanted = Some(Wanted::Name),
            Told::Nameless => self.next.name = NO_NAME,
            Told::On => self.wanted = Some(Wanted::Switch(true)),
            Told::Off => self.wanted = Some(Wanted::Switch(false)),
            Told::Space => self.session.waiting.space = Space::Named(self.next.name),
            Told::At => self.next.token = number,
            Told::Part => self.next.part = u16::try_from(number).unwrap_or(0),
            Told::Number => self.next.number = i128::from(number),
            Told::Minus => self.next.number = -i128::from(number),
            Told::Wanted => self.next.wanted = i128::from(number),
            Told::First => self.next.first = self.session.take(),
            Told::Second => self.next.second = self.session.take(),
        }
    }

    // The last type, in a line.
    fn write_type(&mut self, names: &Names, unit: &UnitTokens) -> Result<(), AllocError> {
        let Some(last) = self.session.take() else {
            return self.session.refuse();
        };
        let show = Show {
            names,
            toks: unit,
            types: &self.session.types,
        };
        let text = type_text(self.session.alloc, &show, last)?;
        self.session.shown.extend_from_slice(text.as_slice())?;
        self.session.shown.extend_from_slice(b"\n")
    }

    // The lines of the last failure.
    fn write_last(&mut self, names: &Names, unit: &UnitTokens) -> Result<(), AllocError> {
        let show = Show {
            names,
            toks: unit,
            types: &self.session.types,
        };
        let text = warning_text(self.session.alloc, &show, &self.last)?;
        self.session.shown.extend_from_slice(text.as_slice())
    }

    // The lines of all failures so far, which are forgotten.
    fn write_all(&mut self, names: &Names, unit: &UnitTokens) -> Result<(), AllocError> {
        let show = Show {
            names,
            toks: unit,
            types: &self.session.types,
        };
        let text = print_all(self.session.alloc, &self.failures, &self.classes, &show)?;
        self.failures = FailureList::new(self.session.alloc);
        self.session.shown.extend_from_slice(text.as_slice())
    }

    // The line of an error at the token that was told.
    fn write_error(
        &mut self,
        names: &Names,
        unit: &UnitTokens,
        number: u32,
    ) -> Result<(), AllocError> {
        let Some(kind) = error_of(number) else {
            return self.session.refuse();
        };
        let at = place_of(unit, self.next.token);
        let path = path_of(unit, at);
        let text = error_text(self.session.alloc, names, path, kind, at, self.next.name)?;
        self.session.shown.extend_from_slice(text.as_slice())
    }
}

// Where a token stands, and the beginning of the file where there is none.
fn place_of(unit: &UnitTokens, token: u32) -> Place {
    match unit.tokens.as_slice().get(token as usize) {
        Some(token) => token.place,
        None => Place {
            file: 1,
            line: 1,
            column: 1,
        },
    }
}

// The path of a place's file.
fn path_of(unit: &UnitTokens, place: Place) -> NameId {
    match unit.files.as_slice().get(place.file as usize) {
        Some(&path) => path,
        None => NO_NAME,
    }
}

/// What is told of the next failure.
#[derive(Clone, Copy)]
enum Told {
    Called,
    Nameless,
    On,
    Off,
    Space,
    At,
    Part,
    Number,
    Minus,
    Wanted,
    First,
    Second,
}

/// What gets the name that was told.
#[derive(Clone, Copy)]
enum Naming {
    Tag,
    Identity,
}

impl Naming {
    fn with(self, number: u32) -> Named {
        match self {
            Naming::Tag => Named::Tag(number),
            Naming::Identity => Named::Identity(Restrict(number)),
        }
    }
}

/// What a word does.
#[derive(Clone, Copy)]
enum Verb {
    Tell(Told),
    Name(Naming),
    Text,
    Warning,
    Warnings,
    Error,
}

/// The words, each as far as a number stands behind it.
const VERBS: [(&[u8], Verb); 18] = [
    (b"called", Verb::Tell(Told::Called)),
    (b"nameless", Verb::Tell(Told::Nameless)),
    (b"on", Verb::Tell(Told::On)),
    (b"off", Verb::Tell(Told::Off)),
    (b"named_space", Verb::Tell(Told::Space)),
    (b"at", Verb::Tell(Told::At)),
    (b"part", Verb::Tell(Told::Part)),
    (b"number", Verb::Tell(Told::Number)),
    (b"minus", Verb::Tell(Told::Minus)),
    (b"wanted", Verb::Tell(Told::Wanted)),
    (b"first", Verb::Tell(Told::First)),
    (b"second", Verb::Tell(Told::Second)),
    (b"tag_is", Verb::Name(Naming::Tag)),
    (b"identity_is", Verb::Name(Naming::Identity)),
    (b"text", Verb::Text),
    (b"warning", Verb::Warning),
    (b"warnings", Verb::Warnings),
    (b"error", Verb::Error),
];

// What a word does, and the number behind it.
fn verb_of(word: &[u8]) -> Option<(Verb, u32)> {
    let (stem, number) = with_number(word).unwrap_or((word, 0));
    for (spelled, verb) in VERBS {
        if stem == spelled {
            return Some((verb, u32::try_from(number).ok()?));
        }
    }
    None
}

/// The rules by their names.
const RULES: [(&[u8], RuleCode); 26] = [
    (b"A1", RuleCode::A1),
    (b"A2", RuleCode::A2),
    (b"A3", RuleCode::A3),
    (b"A4", RuleCode::A4),
    (b"A5", RuleCode::A5),
    (b"A6", RuleCode::A6),
    (b"A7", RuleCode::A7),
    (b"B1", RuleCode::B1),
    (b"B2", RuleCode::B2),
    (b"B3", RuleCode::B3),
    (b"B4", RuleCode::B4),
    (b"B5", RuleCode::B5),
    (b"B6", RuleCode::B6),
    (b"B7", RuleCode::B7),
    (b"C1", RuleCode::C1),
    (b"C2", RuleCode::C2),
    (b"C3", RuleCode::C3),
    (b"N1", RuleCode::N1),
    (b"S1", RuleCode::S1),
    (b"S2", RuleCode::S2),
    (b"S3", RuleCode::S3),
    (b"S4", RuleCode::S4),
    (b"S5", RuleCode::S5),
    (b"S6", RuleCode::S6),
    (b"S7", RuleCode::S7),
    (b"S8", RuleCode::S8),
];

fn rule_of(word: &[u8]) -> Option<RuleCode> {
    for (spelled, rule) in RULES {
        if word == spelled {
            return Some(rule);
        }
    }
    None
}

/// The errors in the order of their numbers.
static ERRORS: [ErrorKind; 89] = [
    ErrorKind::NoSuchFile,
    ErrorKind::IncludeNotFound,
    ErrorKind::UnterminatedComment,
    ErrorKind::UnterminatedLiteral,
    ErrorKind::UnterminatedConditional,
    ErrorKind::ConditionalWithoutIf,
    ErrorKind::ConditionalAfterElse,
    ErrorKind::MalformedDirective,
    ErrorKind::UnknownDirective,
    ErrorKind::MacroRedefined,
    ErrorKind::BadMacroDefinition,
    ErrorKind::WrongNumberOfMacroArguments,
    ErrorKind::UnterminatedMacroCall,
    ErrorKind::BadPaste,
    ErrorKind::BadIfExpression,
    ErrorKind::DivisionByZeroInIf,
    ErrorKind::ErrorDirective,
    ErrorKind::SyntaxError,
    ErrorKind::NotDeclared,
    ErrorKind::Redeclared,
    ErrorKind::BadAttribute,
    ErrorKind::BadNumber,
    ErrorKind::NumberTooLarge,
    ErrorKind::BadEscape,
    ErrorKind::EmptyCharacterConstant,
    ErrorKind::BadDeclaration,
    ErrorKind::FloatingType,
    ErrorKind::InlineAssembly,
    ErrorKind::ParameterWithoutType,
    ErrorKind::NestedFunction,
    ErrorKind::ComputedGoto,
    ErrorKind::GenericSelection,
    ErrorKind::AtomicType,
    ErrorKind::ComplexType,
    ErrorKind::ThreadLocal,
    ErrorKind::Int128,
    ErrorKind::LocalLabel,
    ErrorKind::UniversalCharacterName,
    ErrorKind::WideOrUtfLiteral,
    ErrorKind::CaseRange,
    ErrorKind::DesignatorRange,
    ErrorKind::AutoType,
    ErrorKind::Alignas,
    ErrorKind::Builtin,
    ErrorKind::PragmaOperator,
    ErrorKind::QualifierInArrayBrackets,
    ErrorKind::BadScriptLine,
    ErrorKind::NotPlain,
    ErrorKind::CannotDereference,
    ErrorKind::CannotTakeAddress,
    ErrorKind::NotModifiable,
    ErrorKind::WrongOperandTypes,
    ErrorKind::CalledObjectIsNoFunction,
    ErrorKind::WrongNumberOfArguments,
    ErrorKind::NoSuchMember,
    ErrorKind::NoAggregate,
    ErrorKind::VoidValueUsed,
    ErrorKind::IncompleteType,
    ErrorKind::IncompatibleTypes,
    ErrorKind::BadCast,
    ErrorKind::ConditionIsNotScalar,
    ErrorKind::SwitchOnNoInteger,
    ErrorKind::CaseLabelIsNotConstant,
    ErrorKind::CaseValueUsedTwice,
    ErrorKind::TwoDefaultLabels,
    ErrorKind::LabelOutsideSwitch,
    ErrorKind::JumpOutsideLoop,
    ErrorKind::LabelIsNotDefined,
    ErrorKind::LabelDefinedTwice,
    ErrorKind::JumpIntoStatementExpression,
    ErrorKind::ValueReturnedFromVoid,
    ErrorKind::ReturnWithoutValue,
    ErrorKind::VariableLengthArray,
    ErrorKind::NegativeArraySize,
    ErrorKind::BadElementType,
    ErrorKind::BadResultType,
    ErrorKind::BadBitField,
    ErrorKind::RestrictedBitField,
    ErrorKind::BitwiseOnNoInteger,
    ErrorKind::EnumeratorIsNotConstant,
    ErrorKind::EnumeratorOutOfRange,
    ErrorKind::MemberDeclaredTwice,
    ErrorKind::TagRedeclared,
    ErrorKind::DefinedTwice,
    ErrorKind::StaticAssertionFailed,
    ErrorKind::ExtraInitializer,
    ErrorKind::InitializerIsNotConstant,
    ErrorKind::BadDesignator,
    ErrorKind::TypedefHasAnotherType,
];

fn error_of(number: u32) -> Option<ErrorKind> {
    for &kind in &ERRORS {
        if u32::from(kind.number()) == number {
            return Some(kind);
        }
    }
    None
}
