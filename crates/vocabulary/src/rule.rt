// Rules by name, each with its number and its class. How they are judged isn't known here.
ghost use Rattle.std.specs.Prelude.{◌≡◌};
ghost use Rattle.vocabulary.specs.Rules.{rule_class, rule_number};

use crate::class::Class;

/// The rules whose failures are warnings: on address spaces, restricted integers, contexts, null
/// pointers and style.
#[derive(Clone, Copy, Debug, PartialEq, Eq)]
pub enum RuleCode {
    /// A conversion between pointers mixes address spaces.
    A1,
    /// A conversion changes a pointer's target, makes a pointer of an integer but 0, or of a pointer an integer but `_Bool`.
    A2,
    /// Pointers with unlike targets meet at a comparison, `?:` or `-`, or a pointer and a number but 0 at the first two.
    A3,
    /// A place is read or written whose type is `noderef` or has an address space.
    A4,
    /// Without `force`, a cast takes a pointer from its space to another, to none, or to an integer but `unsigned long`.
    A5,
    /// Without `force`, a cast takes a pointer from no space to one.
    A6,
    /// An object or a function is declared again with another type, or with other counts of context.
    A7,
    /// A restricted operand of `+ - * / % << >> < > <= >=`, or a restricted index.
    B1,
    /// Unlike restricted types, or a restricted and a plain operand but 0, meet at `& | ^ == != ?:` or `&= |= ^=`.
    B2,
    /// The two sides of a conversion meet as in `B2`.
    B3,
    /// Without `force`, a cast leads from or to a restricted type, but for the same one, `void` and the constant 0.
    B4,
    /// What `~` makes of a restricted value narrower than `int` is compared, tested, switched on or a case label.
    B5,
    /// A case label and the value of its `switch` meet as in `B2`.
    B6,
    /// A restricted operand of `++`, `--` or a compound assignment other than `&= |= ^=`.
    B7,
    /// Two paths reach one point of a function with different counts of context.
    C1,
    /// A count falls below 0, or is below what a called function wants, and `C1` doesn't hold.
    C2,
    /// A function is left with another count than it says, and neither `C1` nor `C2` holds.
    C3,
    /// The integer constant 0 becomes a null pointer.
    N1,
    /// A definition at file scope that isn't static has no earlier declaration.
    S1,
    /// A name in a block hides an ordinary name of an outer scope.
    S2,
    /// An identifier is left in an `#if` or `#elif` that is evaluated.
    S3,
    /// A function that returns `void` returns an expression of that type.
    S4,
    /// The body of a `do` has no braces.
    S5,
    /// A declarator has an empty parameter list.
    S6,
    /// A bit-field of width 1 is signed.
    S7,
    /// A cast of an integer constant to a type with fewer bits changes its value.
    S8,
}

impl RuleCode {
    /// The rule's number, by which failures at one token are ordered.
    pub fn number(self) -> u8
        ensures { result ≡ rule_number self }
    {
        self as u8 + 1
    }

    /// The class that switches the rule on and off.
    pub fn class(self) -> Class
        ensures { result ≡ rule_class self }
    {
        match self {
            RuleCode::A1 => Class::AddressSpace,
            RuleCode::A2 => Class::AddressSpace,
            RuleCode::A3 => Class::AddressSpace,
            RuleCode::A4 => Class::AddressSpace,
            RuleCode::A5 => Class::AddressSpace,
            RuleCode::A6 => Class::CastToAs,
            RuleCode::A7 => Class::AddressSpace,
            RuleCode::B1 => Class::Bitwise,
            RuleCode::B2 => Class::Bitwise,
            RuleCode::B3 => Class::Bitwise,
            RuleCode::B4 => Class::Bitwise,
            RuleCode::B5 => Class::Bitwise,
            RuleCode::B6 => Class::Bitwise,
            RuleCode::B7 => Class::Bitwise,
            RuleCode::C1 => Class::Context,
            RuleCode::C2 => Class::Context,
            RuleCode::C3 => Class::Context,
            RuleCode::N1 => Class::NonPointerNull,
            RuleCode::S1 => Class::Decl,
            RuleCode::S2 => Class::Shadow,
            RuleCode::S3 => Class::Undef,
            RuleCode::S4 => Class::ReturnVoid,
            RuleCode::S5 => Class::DoWhile,
            RuleCode::S6 => Class::StrictPrototypes,
            RuleCode::S7 => Class::OneBitSignedBitfield,
            RuleCode::S8 => Class::CastTruncate,
        }
    }
}
