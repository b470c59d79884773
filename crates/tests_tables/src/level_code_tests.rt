use code_trees::{CodeSet, add_prefixes, begins_with_total, has_blank};
use std::alloc::Global;
use std::rt::HostRuntime;
use std::test::Fail;

// Codes, and whether a blank is inside.
const BLANKS: [(&str, bool); 7] = [
    ("", false),
    ("12", false),
    ("1 2", true),
    (" 12", true),
    ("12 ", true),
    ("1\t2", true),
    // an end of line is no blank
    ("1\n", false),
];

#[test]
fn blanks_in_codes(rt: HostRuntime) -> Result<(), Fail> {
    for (code, expected) in &BLANKS {
        assert_eq!(rt; has_blank(code.as_bytes()), *expected);
    }
    Ok(())
}

// Totals, widths, codes, and whether the total is the code or a prefix of it.
const TOTALS: [(&str, [u8; 3], &str, bool); 13] = [
    ("1", [1, 1, 2], "1", true),
    ("1", [1, 1, 2], "12", true),
    ("12", [1, 1, 2], "1234", true),
    // a prefix that ends between two boundaries is none, but a code may end there
    ("123", [1, 1, 2], "1234", false),
    ("123", [1, 1, 2], "123", true),
    // not at the beginning, and longer than the code
    ("2", [1, 1, 2], "12", false),
    ("1234", [1, 1, 2], "123", false),
    // other widths, other prefixes
    ("1", [2, 1, 1], "12", false),
    ("12", [2, 1, 1], "123", true),
    // no byte
    ("", [1, 1, 2], "12", false),
    ("", [1, 1, 2], "", true),
    // a code that is longer than the widths together
    ("1234", [1, 1, 2], "12345", true),
    ("12345", [1, 1, 2], "12345", true),
];

#[test]
fn totals_of_levels(rt: HostRuntime) -> Result<(), Fail> {
    for (total, widths, code, expected) in &TOTALS {
        assert_eq!(rt;
            begins_with_total(total.as_bytes(), widths, code.as_bytes()),
            *expected
        );
    }
    Ok(())
}

// The set of these codes with their prefixes.
fn kept_of(alloc: Global, widths: &[u8; 3], codes: &[&str]) -> Result<CodeSet, Fail> {
    let mut kept = CodeSet::new(alloc);
    for code in codes {
        add_prefixes(alloc, &mut kept, widths, code.as_bytes())?;
    }
    Ok(kept)
}

// The codes of a set, each with a full stop behind it.
fn shown(alloc: Global, kept: CodeSet) -> Result<Vec<u8>, Fail> {
    let mut text = Vec::new(alloc);
    for code in kept.into_texts(alloc)? {
        text.extend_from_slice(code.as_slice())?;
        text.push(b'.')?;
    }
    Ok(text)
}

// Whether so many codes are kept, and which.
fn are_kept(
    alloc: Global,
    widths: &[u8; 3],
    codes: &[&str],
    count: usize,
    expected: &str,
) -> Result<bool, Fail> {
    let kept = kept_of(alloc, widths, codes)?;
    if kept.len() != count {
        return Ok(false);
    }
    let text = shown(alloc, kept)?;
    Ok(text.as_slice() == expected.as_bytes())
}

// Widths, codes in the order in which they come, and how many are kept and which.
const KEPT: [([u8; 3], &[&str], usize, &str); 8] = [
    ([1, 1, 2], &[], 0, ""),
    ([1, 1, 2], &["12"], 2, "1.12."),
    // in any order, each once
    ([1, 1, 2], &["21", "12", "11", "12"], 5, "1.11.12.2.21."),
    ([1, 1, 2], &["1234", "1235", "12"], 4, "1.12.1234.1235."),
    // codes that end between two boundaries
    ([2, 2, 1], &["1", "12", "123"], 3, "1.12.123."),
    // by bytes, not by numbers
    ([2, 1, 1], &["9", "10", "1"], 3, "1.10.9."),
    // no byte, and more than the widths together
    ([1, 1, 2], &[""], 1, "."),
    ([1, 1, 2], &["12345"], 4, "1.12.1234.12345."),
];

#[test]
fn kept_prefixes(rt: HostRuntime) -> Result<(), Fail> {
    for (widths, codes, count, expected) in &KEPT {
        assert!(rt; are_kept(rt.alloc(), widths, codes, *count, expected)?);
    }
    Ok(())
}
