// The spellings that a program finds taken. Tokens aren't known here.
ghost use Rattle.vocabulary.specs.Words.{WordExamples};

/// The keywords, in the order of C11 6.4.1.
pub const KEYWORDS: [&str; 44] = [
    "auto",
    "break",
    "case",
    "char",
    "const",
    "continue",
    "default",
    "do",
    "double",
    "else",
    "enum",
    "extern",
    "float",
    "for",
    "goto",
    "if",
    "inline",
    "int",
    "long",
    "register",
    "restrict",
    "return",
    "short",
    "signed",
    "sizeof",
    "static",
    "struct",
    "switch",
    "typedef",
    "union",
    "unsigned",
    "void",
    "volatile",
    "while",
    "_Alignas",
    "_Alignof",
    "_Atomic",
    "_Bool",
    "_Complex",
    "_Generic",
    "_Imaginary",
    "_Noreturn",
    "_Static_assert",
    "_Thread_local",
];

/// Words that are no keywords of C11 and can't be names all the same.
pub const RESERVED_WORDS: [&str; 3] = ["asm", "typeof", "_Pragma"];

/// The macros that are defined before the first line.
pub const PREDEFINED_MACROS: [&str; 7] = [
    "__CHECKER__",
    "__STDC__",
    "__STDC_VERSION__",
    "__LP64__",
    "__FILE__",
    "__LINE__",
    "__COUNTER__",
];

/// The words of each table are spelled as one reads them.
pub fn words_are_spelled()
    ensures { WordExamples }
{}
