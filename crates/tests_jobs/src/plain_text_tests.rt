use plain_text::{
    NumberFault, cut_at, cut_at_blank, is_blank_byte, is_file_name, lines, number_in, print_units,
    read_units, trim,
};
use sdc_base::Memory;
use std::alloc::Global;
use std::rt::HostRuntime;
use std::test::Fail;

// `read_units`, where it may be called.
fn read(bytes: &[u8], decimals: u8) -> Option<Result<i128, NumberFault>> {
    if bytes.len() > 1000 || decimals > 13 {
        return None;
    }
    Some(read_units(bytes, decimals))
}

// The greatest number of units that is read.
const MOST: i128 = 9_999_999_999_999_999_999_999_999_999_999_999_999;

// Texts, decimals, and what reading each gives.
const NUMBERS: [(&str, u8, Result<i128, NumberFault>); 25] = [
    ("12.5", 2, Ok(1250)),
    ("12.50", 2, Ok(1250)),
    ("1.234", 2, Err(NumberFault::TooManyDecimals)),
    ("1.234", 3, Ok(1234)),
    ("", 0, Err(NumberFault::Empty)),
    ("", 2, Err(NumberFault::Empty)),
    (".", 2, Err(NumberFault::Empty)),
    ("5.", 0, Ok(5)),
    (".5", 2, Ok(50)),
    (".5", 0, Err(NumberFault::TooManyDecimals)),
    ("1x", 0, Err(NumberFault::NotADigit(1))),
    ("-1", 0, Err(NumberFault::NotADigit(0))),
    ("1 ", 0, Err(NumberFault::NotADigit(1))),
    ("1.2.3", 2, Err(NumberFault::NotADigit(3))),
    ("..", 2, Err(NumberFault::NotADigit(1))),
    // the first refusal in the order is given
    ("1.234x", 2, Err(NumberFault::NotADigit(5))),
    (".x", 2, Err(NumberFault::NotADigit(1))),
    (
        "99999999999999999999999999999999999999.5",
        0,
        Err(NumberFault::TooManyDecimals),
    ),
    // leading zeros
    ("0", 0, Ok(0)),
    ("007", 0, Ok(7)),
    ("00012.5", 1, Ok(125)),
    // the widest numbers
    ("9999999999999999999999999999999999999", 0, Ok(MOST)),
    (
        "10000000000000000000000000000000000000",
        0,
        Err(NumberFault::TooWide),
    ),
    ("999999999999999999999999.9999999999999", 13, Ok(MOST)),
    ("1000000000000000000000000", 13, Err(NumberFault::TooWide)),
];

#[test]
fn numbers(rt: HostRuntime) {
    for (text, decimals, units) in &NUMBERS {
        assert_eq!(rt; read(text.as_bytes(), *decimals), Some(*units));
    }
}

#[test]
fn a_number_behind_many_zeros(rt: HostRuntime) {
    let mut long = [b'0'; 200];
    long[170..].copy_from_slice(b"123456789012345678901234567890");
    assert_eq!(rt;
        read(&long, 0),
        Some(Ok(123_456_789_012_345_678_901_234_567_890))
    );
}

// Whether `print_units` may be called, and prints this text.
fn is_printed(alloc: Global, value: i128, decimals: u8, text: &str) -> Result<bool, Memory> {
    if value < 0 || decimals > 13 {
        return Ok(false);
    }
    let printed = print_units(alloc, value, decimals)?;
    Ok(printed.as_slice() == text.as_bytes())
}

// Numbers of units, decimals, and the texts that are printed.
const PRINTED: [(i128, u8, &str); 11] = [
    (1250, 2, "12.50"),
    (1250, 0, "1250"),
    (0, 0, "0"),
    (0, 2, "0.00"),
    (5, 2, "0.05"),
    (100, 2, "1.00"),
    (7, 13, "0.0000000000007"),
    (MOST, 0, "9999999999999999999999999999999999999"),
    (MOST, 2, "99999999999999999999999999999999999.99"),
    (MOST, 13, "999999999999999999999999.9999999999999"),
    (i128::MAX, 0, "170141183460469231731687303715884105727"),
];

#[test]
fn printed_numbers(rt: HostRuntime) -> Result<(), Fail> {
    for (value, decimals, text) in &PRINTED {
        assert!(rt; is_printed(rt.alloc(), *value, *decimals, text)?);
    }
    Ok(())
}

// The text has these lines, numbered from 1, and no further ones.
fn has_lines(text: &str, wanted: &[&str]) -> bool {
    let mut reader = lines(text.as_bytes());
    for (i, want) in wanted.iter().enumerate() {
        let Some(line) = reader.next_line() else {
            return false;
        };
        if !(line.text == want.as_bytes() && line.number == i as u64 + 1) {
            return false;
        }
    }
    reader.next_line().is_none() && reader.next_line().is_none()
}

// Texts, and the lines of each.
const TEXTS: [(&str, &[&str]); 9] = [
    ("a\r\nb\n\nc", &["a", "b", "", "c"]),
    ("a\r\nb\r\n", &["a", "b"]),
    ("a\rb\nc", &["a\rb", "c"]),
    ("a\nb\r", &["a", "b\r"]),
    ("a\r\r\n", &["a\r"]),
    ("\n", &[""]),
    ("\r\n\r\n", &["", ""]),
    ("\r", &["\r"]),
    ("", &[]),
];

#[test]
fn lines_of_texts(rt: HostRuntime) {
    for (text, wanted) in &TEXTS {
        assert!(rt; has_lines(text, wanted));
    }
}

// Texts, and the same without the blanks round them.
const TRIMMED: [(&str, &str); 8] = [
    (" \ta b\t ", "a b"),
    ("\x0c a \x0c", "\x0c a \x0c"),
    (" \x0c ", "\x0c"),
    (" a\r", "a\r"),
    ("a\n ", "a\n"),
    ("a", "a"),
    (" \t ", ""),
    ("", ""),
];

#[test]
fn blanks(rt: HostRuntime) {
    for (text, want) in &TRIMMED {
        assert_eq!(rt; trim(text.as_bytes()), want.as_bytes());
    }
}

// `number_in`, where it may be called.
fn whole(low: u64, high: u64, digits: &[u8]) -> Option<Option<u64>> {
    if high >= 1_000_000_000_000_000_000 {
        return None;
    }
    Some(number_in(low, high, digits))
}

// The greatest number of eighteen digits.
const WIDEST: u64 = 999_999_999_999_999_999;

// Texts, the least and the greatest number that is taken, and what each is.
const WHOLE_NUMBERS: [(&str, u64, u64, Option<u64>); 18] = [
    ("003", 1, 10, Some(3)),
    ("0", 1, 10, None),
    ("1", 1, 10, Some(1)),
    ("10", 1, 10, Some(10)),
    ("11", 1, 10, None),
    ("000", 0, 0, Some(0)),
    ("5", 6, 4, None),
    // neither a sign nor a point nor a blank, and one digit at least
    ("", 0, 9, None),
    ("+3", 0, 9, None),
    ("-0", 0, 9, None),
    ("3.", 0, 9, None),
    (" 3", 0, 9, None),
    ("3 ", 0, 9, None),
    ("3x", 0, 9, None),
    // the widest numbers
    ("999999999999999999", 0, WIDEST, Some(WIDEST)),
    ("1000000000000000000", 0, WIDEST, None),
    ("99999999999999999999999999999999999999999", 0, WIDEST, None),
    (
        "00000000000000000000000000000000000000012",
        0,
        WIDEST,
        Some(12),
    ),
];

#[test]
fn whole_numbers(rt: HostRuntime) {
    for (text, low, high, number) in &WHOLE_NUMBERS {
        assert_eq!(rt; whole(*low, *high, text.as_bytes()), Some(*number));
    }
}

// Texts, what stands before the first comma of each, and what stands behind it.
const CUTS_AT_COMMAS: [(&str, &str, &str); 6] = [
    ("a,b,c", "a", "b,c"),
    (",b", "", "b"),
    ("a,", "a", ""),
    (",,", "", ","),
    ("a b;c", "a b;c", ""),
    ("", "", ""),
];

#[test]
fn cuts_at_commas(rt: HostRuntime) {
    for (text, front, rest) in &CUTS_AT_COMMAS {
        assert_eq!(rt;
            cut_at(b',', text.as_bytes()),
            (front.as_bytes(), rest.as_bytes())
        );
    }
}

// Texts, what stands before the first blank of each, and what stands behind it.
const CUTS_AT_BLANKS: [(&str, &str, &str); 7] = [
    ("a b c", "a", "b c"),
    ("a\tb c", "a", "b c"),
    ("a  b", "a", " b"),
    (" a", "", "a"),
    ("a ", "a", ""),
    ("a\rb\x0c,c", "a\rb\x0c,c", ""),
    ("", "", ""),
];

#[test]
fn cuts_at_blanks(rt: HostRuntime) {
    for (text, front, rest) in &CUTS_AT_BLANKS {
        assert_eq!(rt;
            cut_at_blank(text.as_bytes()),
            (front.as_bytes(), rest.as_bytes())
        );
    }
}

// Bytes, and whether each is a blank.
const BLANK_BYTES: [(u8, bool); 9] = [
    (b' ', true),
    (b'\t', true),
    (b'\n', false),
    (b'\r', false),
    (0x0b, false),
    (0x0c, false),
    (0xa0, false),
    (0, false),
    (b'a', false),
];

#[test]
fn blank_bytes(rt: HostRuntime) {
    for (byte, blank) in &BLANK_BYTES {
        assert_eq!(rt; is_blank_byte(*byte), *blank);
    }
}

// Texts, and whether each may be the name of a file.
const FILE_NAMES: [(&str, bool); 13] = [
    ("t.csv", true),
    ("../size class.cdl", true),
    ("'a', b", true),
    (" ", true),
    ("!~", true),
    ("", false),
    ("\"", false),
    ("a\"b", false),
    ("a\tb", false),
    ("a\n", false),
    ("a\x1f", false),
    ("a\x7f", false),
    ("\u{e9}", false),
];

#[test]
fn file_names(rt: HostRuntime) {
    for (name, fine) in &FILE_NAMES {
        assert_eq!(rt; is_file_name(name.as_bytes()), *fine);
    }
}

// 255 bytes, and one more.
#[test]
fn long_file_names(rt: HostRuntime) {
    let long = [b'a'; 256];
    assert_eq!(rt;
        (is_file_name(&long[..255]), is_file_name(&long)),
        (true, false)
    );
}
