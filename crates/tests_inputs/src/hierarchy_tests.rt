ghost use Rattle.std.specs.Prelude.{◌≤◌, All, IfOk, length};

use hierarchy::{CodeTree, TreeFault, flat, from_lead, from_levels, read_codes, with_missing};
use sdc_base::Text;
use std::alloc::{AllocError, Global};
use std::rt::HostRuntime;
use std::test::Fail;

// The texts that are no longer than the most.
fn texts(alloc: Global, bytes: &[&str], most: usize) -> Result<Vec<Text>, AllocError>
    ensures { IfOk result (λ made. All (λ text. length text ≤ most) made.items) }
{
    let mut made = Vec::new(alloc);
    'bytes: for one in bytes {
        let text = Text::from_slice(alloc, one.as_bytes())?;
        if text.as_slice().len() <= most {
            made.push(text)?;
        }
    }
    Ok(made)
}

// A place as a digit.
fn digit(place: Option<u32>) -> u8 {
    match place {
        None => b'-',
        Some(place) if place < 10 => b'0' + place as u8,
        Some(_) => b'+',
    }
}

// Each of the first twenty codes with its parent, depth, first child and next sibling.
fn shown(alloc: Global, tree: &CodeTree) -> Result<Vec<u8>, TreeFault> {
    let mut text = Vec::new(alloc);
    'places: for place in 0..20u32 {
        if let Some(code) = tree.code(place) {
            text.extend_from_slice(code)?;
            text.push(b':')?;
            text.push(digit(tree.parent(place)))?;
            text.push(digit(tree.depth(place)))?;
            text.push(digit(tree.first_child(place)))?;
            text.push(digit(tree.next_sibling(place)))?;
            text.push(b' ')?;
        }
    }
    Ok(text)
}

// A tree or codes as a text, or what is wrong with them.
type Expected = Result<&'static str, TreeFault>;

// Whether the answer is the expected tree or fault.
fn agrees(answer: Result<Vec<u8>, TreeFault>, expected: &Expected) -> bool {
    match answer {
        Ok(text) => match expected {
            Ok(tree) => text.as_slice() == tree.as_bytes(),
            Err(_) => false,
        },
        Err(fault) => match expected {
            Ok(_) => false,
            Err(other) => fault == *other,
        },
    }
}

// The same of a tree that was made, where there is one.
fn tree_shown(alloc: Global, made: Result<CodeTree, TreeFault>) -> Result<Vec<u8>, TreeFault> {
    let tree = made?;
    shown(alloc, &tree)
}

// Whether `from_lead` may be called and makes of the bytes what is expected.
fn is_read_by_lead(
    alloc: Global,
    lead: &str,
    bytes: &str,
    expected: &Expected,
) -> Result<bool, Fail> {
    let (lead, total) = (
        Text::from_slice(alloc, lead.as_bytes())?,
        Text::from_slice(alloc, b"Total")?,
    );
    if lead.as_slice().is_empty() || bytes.len() > 1000 {
        return Err(Fail::new("no lead, or too many bytes"));
    }
    let made = from_lead(alloc, bytes.as_bytes(), &lead, &total);
    Ok(agrees(tree_shown(alloc, made), expected))
}

// The leads and the bytes of hierarchy files, and what they make.
const HIERARCHY_FILES: [(&str, &str, Expected); 15] = [
    (
        "@",
        "Nr\n@1\n@2\nOs\n@3\n",
        Ok("Total:-01- Nr:0124 1:12-3 2:12-- Os:015- 3:42-- "),
    ),
    ("@", "", Ok("Total:-0-- ")),
    ("@", "Nr\n@@1", Err(TreeFault::Jump(2))),
    ("@", "@1", Err(TreeFault::Jump(1))),
    // blank lines are passed over, and blanks round a code are dropped after the leads
    ("@", "a\r\n\r\n \t\r\n@ b ", Ok("Total:-01- a:012- b:12-- ")),
    ("@", "a\n @b", Ok("Total:-01- a:01-2 @b:01-- ")),
    // nine levels, and ten
    (
        "@",
        "a\n@b\n@@c\n@@@d\n@@@@e\n@@@@@f\n@@@@@@g\n@@@@@@@h\n@@@@@@@@i",
        Ok("Total:-01- a:012- b:123- c:234- d:345- e:456- f:567- g:678- h:789- i:89-- "),
    ),
    (
        "@",
        "a\n@b\n@@c\n@@@d\n@@@@e\n@@@@@f\n@@@@@@g\n@@@@@@@h\n@@@@@@@@i\n@@@@@@@@@j",
        Err(TreeFault::TooDeep(10)),
    ),
    // leads of two bytes, and a code that begins with half a lead
    (
        "--",
        "a\n--b\n---c",
        Ok("Total:-01- a:012- b:12-3 -c:12-- "),
    ),
    // the faults of a line in their order
    ("@", "Nr\n@ \n", Err(TreeFault::NoCode(2))),
    ("@", "@", Err(TreeFault::NoCode(1))),
    ("@", "@Total", Err(TreeFault::Jump(1))),
    ("@", "Nr\n Total", Err(TreeFault::IsTotal(2))),
    ("@", "Nr\n\n@Nr\n", Err(TreeFault::Twice(3))),
    ("@", "Nr\n@1\nOs\n@1", Err(TreeFault::Twice(4))),
];

#[test]
fn hierarchy_files(rt: HostRuntime) -> Result<(), Fail> {
    for (lead, bytes, expected) in &HIERARCHY_FILES {
        assert!(rt; is_read_by_lead(rt.alloc(), lead, bytes, expected)?);
    }
    Ok(())
}

// Whether `from_levels` with two widths may be called and makes of the codes what is expected.
fn is_made_by_levels(
    alloc: Global,
    first: u8,
    second: u8,
    codes: &[&str],
    expected: &Expected,
) -> Result<bool, Fail> {
    let total = Text::from_slice(alloc, b"T")?;
    if first == 0 || second == 0 {
        return Err(Fail::new("a width of 0"));
    }
    let codes = texts(alloc, codes, first as usize + second as usize)?;
    let made = from_levels(alloc, &codes, &[first, second], &total);
    Ok(agrees(tree_shown(alloc, made), expected))
}

// Two widths, codes, and what they make.
const LEVEL_CODES: [(u8, u8, [&str; 3], Expected); 9] = [
    (
        1,
        1,
        ["11", "12", "21"],
        Ok("T:-01- 1:0124 11:12-3 12:12-- 2:015- 21:42-- "),
    ),
    (
        1,
        1,
        ["21", "12", "11"],
        Ok("T:-01- 1:0124 11:12-3 12:12-- 2:015- 21:42-- "),
    ),
    // the empty code is a child of the total
    (1, 1, ["", "a", "ab"], Ok("T:-01- :01-2 a:013- ab:22-- ")),
    // a code that ends between two boundaries is no parent
    (
        2,
        2,
        ["1", "12", "123"],
        Ok("T:-01- 1:01-2 12:013- 123:22-- "),
    ),
    // the faults of a code in their order
    (1, 1, ["a", "b ", "T"], Err(TreeFault::Blank(2))),
    (1, 1, ["a", "T ", "b"], Err(TreeFault::Blank(2))),
    (1, 1, ["a", "b", "Tb"], Err(TreeFault::IsTotal(3))),
    (1, 1, ["T", "T", "b"], Err(TreeFault::IsTotal(1))),
    (1, 1, ["ab", "b", "ab"], Err(TreeFault::Twice(3))),
];

#[test]
fn level_codes(rt: HostRuntime) -> Result<(), Fail> {
    for (first, second, codes, expected) in &LEVEL_CODES {
        assert!(rt; is_made_by_levels(rt.alloc(), *first, *second, codes, expected)?);
    }
    Ok(())
}

// Whether `flat` and then `with_missing` make of the codes what is expected.
fn is_completed(
    alloc: Global,
    codes: &[&str],
    missing: &[&str],
    expected: &Expected,
) -> Result<bool, Fail> {
    let missing = texts(alloc, missing, 9)?;
    if missing.len() > 9 {
        return Err(Fail::new("too many missing codes"));
    }
    let codes = texts(alloc, codes, 9)?;
    let flat = flat(alloc, &codes, &Text::from_slice(alloc, b"T")?);
    let made = completed_by(alloc, flat, &missing);
    Ok(agrees(tree_shown(alloc, made), expected))
}

// A tree that was made with these missing codes, where there is one.
fn completed_by(
    alloc: Global,
    made: Result<CodeTree, TreeFault>,
    missing: &[Text],
) -> Result<CodeTree, TreeFault>
    requires { length missing.now ≤ 9 }
{
    let tree = made?;
    with_missing(alloc, tree, missing)
}

// Codes, missing codes, and what they make.
const COMPLETED_CODES: [([&str; 2], [&str; 2], Expected); 6] = [
    (
        ["b", "a"],
        ["x", "y"],
        Ok("T:-01- b:01-2 a:01-3 x:01-4 y:01-- "),
    ),
    // a missing code that is there stays where it is
    (["b", "a"], ["a", "y"], Ok("T:-01- b:01-2 a:01-3 y:01-- ")),
    (["b", "a"], ["y", "y"], Ok("T:-01- b:01-2 a:01-3 y:01-- ")),
    (["b", "a"], ["b", "T"], Err(TreeFault::IsTotal(2))),
    (["b", "T"], ["b", "T"], Err(TreeFault::IsTotal(2))),
    (["b", "b"], ["T", "T"], Err(TreeFault::Twice(2))),
];

#[test]
fn flat_and_missing_codes(rt: HostRuntime) -> Result<(), Fail> {
    for (codes, missing, expected) in &COMPLETED_CODES {
        assert!(rt; is_completed(rt.alloc(), codes, missing, expected)?);
    }
    Ok(())
}

// The codes of a code list, with a bar behind each.
fn listed(alloc: Global, bytes: &[u8]) -> Result<Result<Vec<u8>, TreeFault>, Fail> {
    let total = Text::from_slice(alloc, b"Total")?;
    if bytes.len() > 100_000 {
        return Err(Fail::new("too many bytes"));
    }
    Ok(joined(alloc, read_codes(alloc, bytes, &total)))
}

// The codes that were read, with a bar behind each, where there was no fault.
fn joined(alloc: Global, read: Result<Vec<Text>, TreeFault>) -> Result<Vec<u8>, TreeFault> {
    let codes = read?;
    let mut joined = Vec::new(alloc);
    'codes: for code in &codes {
        joined.extend_from_slice(code.as_slice())?;
        joined.push(b'|')?;
    }
    Ok(joined)
}

// Whether these codes are read of the code list, or this is its fault.
fn is_list_of(alloc: Global, bytes: &[u8], expected: &Expected) -> Result<bool, Fail> {
    Ok(agrees(listed(alloc, bytes)?, expected))
}

// Code lists, and the codes that are read of each.
const CODE_LISTS: [(&str, Expected); 5] = [
    ("a,A\nb,B\n", Ok("a|b|")),
    (" a \t,x\r\nb", Ok("a|b|")),
    // one pair of quotes is taken off, and the code ends at the first comma
    (
        "\"a\",x\n\" b \",x\n\"\"c\"\",x\n\"d,e\",x",
        Ok("a| b |\"c\"|\"d|"),
    ),
    ("\",\n", Ok("\"|")),
    // an empty code, the total's and a repeated one are passed over
    ("b,x\n,none\n\nTotal,all\n\"\",x\nb\nc,x", Ok("b|c|")),
];

#[test]
fn code_lists(rt: HostRuntime) -> Result<(), Fail> {
    for (bytes, expected) in &CODE_LISTS {
        assert!(rt; is_list_of(rt.alloc(), bytes.as_bytes(), expected)?);
    }
    Ok(())
}
