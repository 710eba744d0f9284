// Short literals, and what each of them has to be read as.
use c_literals::{LiteralFault, read_char, read_integer, read_string};
use sparse_model::{IntConst, IntKind};
use std::process::Abort;
use std::test::Fail;

// A constant, and its value or its fault.
struct Constant {
    spelling: &'static [u8],
    answer: Result<IntConst, LiteralFault>,
}

// The kinds are those of the table of C11 6.4.4.1 p5.
#[rattlefmt::skip]
const INTEGERS: [Constant; 9] = [
    Constant { spelling: b"017", answer: Ok(IntConst { kind: IntKind::Int, bits: 15 }) },
    Constant { spelling: b"0x80000000", answer: Ok(IntConst { kind: IntKind::UInt, bits: 2147483648 }) },
    Constant { spelling: b"2147483648", answer: Ok(IntConst { kind: IntKind::Long, bits: 2147483648 }) },
    Constant { spelling: b"18446744073709551615u", answer: Ok(IntConst { kind: IntKind::ULong, bits: 18446744073709551615 }) },
    Constant { spelling: b"1LLu", answer: Ok(IntConst { kind: IntKind::ULLong, bits: 1 }) },
    Constant { spelling: b"09", answer: Err(LiteralFault::BadDigit) },
    Constant { spelling: b"1uu", answer: Err(LiteralFault::BadSuffix) },
    Constant { spelling: b"18446744073709551616", answer: Err(LiteralFault::TooBig) },
    Constant { spelling: b"1.0", answer: Err(LiteralFault::Floating) },
];

// The values are those of 6.4.4.4.
#[rattlefmt::skip]
const CHARACTERS: [Constant; 6] = [
    Constant { spelling: b"'a'", answer: Ok(IntConst { kind: IntKind::Int, bits: 97 }) },
    Constant { spelling: b"'\\377'", answer: Ok(IntConst { kind: IntKind::Int, bits: 18446744073709551615 }) },
    Constant { spelling: b"'\\400'", answer: Err(LiteralFault::BadEscape) },
    Constant { spelling: b"''", answer: Err(LiteralFault::Empty) },
    Constant { spelling: b"L'a'", answer: Err(LiteralFault::Wide) },
    Constant { spelling: b"'a\\u00e9'", answer: Err(LiteralFault::Universal) },
];

// A string literal without bytes, and its fault.
struct BadString {
    spelling: &'static [u8],
    fault: LiteralFault,
}

#[rattlefmt::skip]
const BAD_STRINGS: [BadString; 3] = [
    BadString { spelling: b"\"\\q\\u00e9\"", fault: LiteralFault::BadEscape },
    BadString { spelling: b"\"\\u00e9\"", fault: LiteralFault::Universal },
    BadString { spelling: b"u8\"a\"", fault: LiteralFault::Wide },
];

// What was read is the answer of the row.
fn assert_read(rt: &impl Abort, read: Result<IntConst, LiteralFault>, row: &Constant) {
    assert_eq!(rt; read, row.answer);
}

#[test]
fn constants_have_values_or_faults(rt: HostRuntime) {
    for row in &INTEGERS {
        assert_read(&rt, read_integer(row.spelling), row);
    }
    for row in &CHARACTERS {
        assert_read(&rt, read_char(row.spelling), row);
    }
}

#[test]
fn strings_have_bytes_or_faults(rt: HostRuntime) -> Result<(), Fail> {
    let string = read_string(rt.alloc(), b"\"a\\n\\x41g\\1018\"")?;
    assert_eq!(rt; string.as_slice(), b"a\nAgA8".as_slice());
    for row in &BAD_STRINGS {
        assert_eq!(rt;
            read_string(rt.alloc(), row.spelling).err(),
            Some(row.fault)
        );
    }
    Ok(())
}
