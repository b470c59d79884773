use MetaWhy::{BadName, BadPlace, BadValue, Clash, TooMany, Twice, UnknownKeyword};
use rda_meta::{MetaError, MetaWhy, read_meta};
use sdc_base::Memory;
use std::alloc::Global;
use std::rt::HostRuntime;
use std::test::Fail;

// How many variables a text states and how many of its lines are passed over, or the line of its first fault and what is
// wrong with it.
type Answer = Result<(usize, u32), (u32, MetaWhy)>;

// What reading the text gives; nothing where memory wants.
fn answer(alloc: Global, text: &[u8]) -> Option<Answer> {
    if text.len() > 10000 {
        return None;
    }
    match read_meta(alloc, text) {
        Ok(meta) => Some(Ok((meta.variables.as_slice().len(), meta.passed_over))),
        Err(MetaError::At { line, why }) => Some(Err((line, why))),
        Err(MetaError::Memory) => None,
    }
}

// Texts, and what reading each gives.
const TEXTS: [(&str, Answer); 76] = [
    // the four lines, the four variables of thirteen records, and the realistic metadata
    ("A 1 1\n<RECODEABLE>\nV 2 3\n<NUMERIC>\n", Ok((2, 0))),
    (
        "A 1 2\n<RECODEABLE>\nB 3 2\n<RECODEABLE>\nC 5 2\n<RECODEABLE>\nV 7 3\n<NUMERIC>\n",
        Ok((4, 0)),
    ),
    (
        "Ind 1 2 99\r\n   <RECODEABLE>\r\n   <HIERARCHICAL>\r\n   <HIERLEVELS> 1 1 0 0 0\r\nReg 3 2\r\n   <RECODEABLE>\r\n   <TOTCODE> All\r\nReq 5 1\r\n   <REQUEST> \"1\" \"2\"\r\nHold 6 3\r\n   <HOLDING>\r\nTurn 9 6 999999 888888\r\n   <NUMERIC>\r\n   <DECIMALS> 0",
        Ok((5, 2)),
    ),
    // the example of the manual
    (
        "Industry 1 2 99\n<RECODEABLE>\n<HIERARCHICAL>\n<HIERLEVELS> 1 1\n\"Size class\" 3 2\n<RECODEABLE>\n<CODELIST> \"size.cdl\"\n<TOTCODE> All\nRegion 5 3\n<RECODEABLE>\n<HIERARCHICAL>\n<HIERCODELIST> \"region.hrc\"\n<HIERLEADSTRING> @\nTurnover 8 9 999999999\n<NUMERIC>\n<DECIMALS> 2\nWeight 17 8\n<WEIGHT>\n<DECIMALS> 3\n",
        Ok((5, 0)),
    ),
    ("", Ok((0, 0))),
    ("\n \t\n", Ok((0, 0))),
    // names
    ("\"Turn over\" 1 1\n", Ok((1, 0))),
    ("\"a b\" 1 1\n\"a  b\" 2 1\n", Ok((2, 0))),
    ("\"A\" 1 1\nA 2 1\n", Err((2, Twice))),
    ("\"A 1 1\n", Ok((1, 0))),
    ("\"A\"1 1\n", Ok((1, 0))),
    ("\"\" 1 1\n", Err((1, BadName))),
    ("\"\" x\n", Err((1, BadName))),
    (
        "aaaaaaaabbbbbbbbccccccccddddddddeeeeeeeeffffffffgggggggghhhhhhhh 1 1\n",
        Ok((1, 0)),
    ),
    (
        "aaaaaaaabbbbbbbbccccccccddddddddeeeeeeeeffffffffgggggggghhhhhhhhi x\n",
        Err((1, BadName)),
    ),
    // places
    ("A 1 255\n", Ok((1, 0))),
    ("A 1 256\n", Err((1, BadPlace))),
    ("A 1000 1\n", Ok((1, 0))),
    ("A 1001 1\n", Err((1, BadPlace))),
    ("A 1000 2\n", Err((1, BadPlace))),
    ("A 746 255\n", Ok((1, 0))),
    ("A 747 255\n", Err((1, BadPlace))),
    ("A 0 1\n", Err((1, BadPlace))),
    ("A 1 0\n", Err((1, BadPlace))),
    ("A 1\n", Err((1, BadPlace))),
    ("A +1 1\n", Err((1, BadPlace))),
    ("A 01 \"1\"\n", Ok((1, 0))),
    ("A 1 4\nB 3 4\n", Ok((2, 0))),
    // missing codes
    ("A 1 1 9 8\n", Ok((1, 0))),
    ("A 1 1 9 8 7\n", Err((1, BadValue))),
    ("A 1 1\nA 1 1 9 8 7\n", Err((2, BadValue))),
    // keywords
    ("<SEPARATOR> ;\n", Err((1, UnknownKeyword))),
    ("A 1 1\n< NUMERIC>\n", Err((2, UnknownKeyword))),
    ("A 1 1\n<NUMERIC\n", Err((2, UnknownKeyword))),
    ("\n<NUMERIC>\n", Err((2, BadName))),
    ("<NUMERIC> x\n", Err((1, BadName))),
    ("<REQUEST> 1\n", Err((1, BadName))),
    ("A 1 1\n<nUmErIc>\n", Ok((1, 0))),
    ("A 1 1\n<NUMERIC> x\n", Err((2, BadValue))),
    ("A 1 1\n<NUMERIC>\n<numeric>\n", Err((3, Twice))),
    ("A 1 1\n<NUMERIC>\n<NUMERIC> x\n", Err((3, BadValue))),
    ("A 1 1\n<RECODEABLE>\n<RECODABLE>\n", Ok((1, 0))),
    (
        "A 1 1\n<REQUEST>\n<request> 1 2\n<DISTANCE> 1\n",
        Ok((1, 3)),
    ),
    ("A 1 1\n<WEIGHT>\nB 2 1\n<WEIGHT>\n", Err((4, Twice))),
    ("A 1 1\n<WEIGHT>\n<WEIGHT>\n", Err((3, Twice))),
    ("A 1 1\nA 2 1\n", Err((2, Twice))),
    ("A 1 1\na 2 1\n", Ok((2, 0))),
    // arguments
    ("A 1 1\n<DECIMALS> 9\n", Ok((1, 0))),
    ("A 1 1\n<DECIMALS> 10\n", Err((2, BadValue))),
    ("A 1 1\n<DECIMALS>\n", Err((2, BadValue))),
    ("A 1 2\n<HIERLEVELS> 1 0 1\n", Err((2, BadValue))),
    ("A 1 2\n<HIERLEVELS> 1\n", Err((2, BadValue))),
    ("A 1 2\n<HIERLEVELS> 1 2\n", Err((2, BadValue))),
    ("A 1 2\n<HIERLEVELS> 0 0\n", Err((2, BadValue))),
    ("A 1 2\n<HIERLEVELS>\n", Err((2, BadValue))),
    ("A 1 9\n<HIERLEVELS> 1 1 1 1 1 1 1 1 1 0\n", Ok((1, 0))),
    (
        "A 1 10\n<HIERLEVELS> 1 1 1 1 1 1 1 1 1 1\n",
        Err((2, BadValue)),
    ),
    ("A 1 1\n<HIERCODELIST>\n", Err((2, BadValue))),
    ("A 1 1\n<CODELIST> \"a b.cdl\"\n", Ok((1, 0))),
    ("A 1 1\n<CODELIST> a\tb\n", Err((2, BadValue))),
    ("A 1 1\n<TOTCODE> \"\"\n", Ok((1, 0))),
    ("A 1 1\n<TOTCODE> a b\n", Err((2, BadValue))),
    ("A 1 1\n<HIERLEADSTRING> 12345678\n", Ok((1, 0))),
    ("A 1 1\n<HIERLEADSTRING> 123456789\n", Err((2, BadValue))),
    ("A 1 1\n<HIERLEADSTRING> \"a b\"\n", Err((2, BadValue))),
    // what doesn't go together
    ("A 1 1\n<HIERLEVELS> 1\n<HIERCODELIST> f\n", Err((1, Clash))),
    ("A 1 1\nB 2 1\n<HIERARCHICAL>\nC 3 1\n", Err((2, Clash))),
    ("A 1 1\n<HIERLEVELS> 1\n<NUMERIC>\n", Err((1, Clash))),
    ("A 1 1\n<HIERCODELIST> f\n<WEIGHT>\n", Err((1, Clash))),
    ("A 1 1\n<WEIGHT>\n<DECIMALS> 4\n", Ok((1, 0))),
    ("A 1 1\n<WEIGHT>\n<DECIMALS> 5\n", Err((1, Clash))),
    ("A 1 1\n<DECIMALS> 5\n<WEIGHT>\nB x\n", Err((4, BadPlace))),
    ("A 1 1\n<HIERLEVELS> 1\n", Ok((1, 0))),
    // the first of two faults
    ("A 1 1\nB x\nC\n", Err((2, BadPlace))),
    (
        "A 1 1\n<HIERARCHICAL>\nB 2 1\n<NUMERIC>\n<HIERLEVELS> 1\n",
        Err((1, Clash)),
    ),
    ("<SEPARATOR> ;\nA x\n", Err((1, UnknownKeyword))),
];

#[test]
fn texts_and_their_first_faults(rt: HostRuntime) {
    for (text, expected) in &TEXTS {
        assert_eq!(rt; answer(rt.alloc(), text.as_bytes()), Some(*expected));
    }
}

// The lines of this many variables with names of their own.
fn variable_lines(alloc: Global, count: u8) -> Result<Vec<u8>, Memory> {
    let mut text = Vec::new(alloc);
    for n in 0..count {
        text.push(b'a' + n / 16)?;
        text.push(b'a' + n % 16)?;
        text.extend_from_slice(b" 1 1\n")?;
    }
    Ok(text)
}

// What reading the lines of this many variables gives.
fn answer_to(alloc: Global, count: u8) -> Result<Option<Answer>, Memory> {
    let text = variable_lines(alloc, count)?;
    Ok(answer(alloc, text.as_slice()))
}

// Numbers of variables, and what reading the lines of so many gives.
const COUNTS: [(u8, Answer); 3] = [
    (64, Ok((64, 0))),
    (65, Err((65, TooMany))),
    (66, Err((65, TooMany))),
];

#[test]
fn at_most_sixty_four_variables(rt: HostRuntime) -> Result<(), Fail> {
    for (count, expected) in &COUNTS {
        assert_eq!(rt; answer_to(rt.alloc(), *count)?, Some(*expected));
    }
    Ok(())
}
