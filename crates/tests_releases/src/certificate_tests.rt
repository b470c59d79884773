use certificate::{CertError, CertWhy, Certificate, read_certificate, write_certificate};
use sdc_base::{Method, Side};
use std::alloc::Global;
use std::rt::HostRuntime;
use std::test::Fail;

// The certificate of a realistic hierarchical table.
const REALISTIC: &str = "argus certificate 2\n\
method MOD\n\
cells 6\n\
relations 3\n\
hidden 1 3 4 5\n\
step 1 0 4 1,4\n\
step 1 1 1 1,3\n\
need 1 4 above 1 0:1\n\
need 3 4 above 1 0:1 1:1\n\
world 4 above 1 1:-3 3:-3 4:3 5:3\n\
world 4 below 1 1:3 3:3 4:-3 5:-3\n\
world 5 above 1 1:-3 3:-3 4:3 5:3\n\
world 5 below 1 1:3 3:3 4:-3 5:-3\n\
end\n";

// The certificate of a flat table without primary cells.
const FLAT: &str = "argus certificate 2\n\
method MOD\n\
cells 3\n\
relations 1\n\
end\n";

// Certificates of a two by two table with shown margins: by repairs alone, and by a trail with needs.
const REPAIRED: &str = "argus certificate 2\n\
method MOD\n\
cells 9\n\
relations 6\n\
hidden 4 5 7 8\n\
repair 5 4 above 1 4:1\n\
repair 8 4 above 1 3:-1 4:1\n\
repair 7 4 above 1 3:-1 4:1 5:1\n\
world 4 above 1 4:6 5:-6 7:-6 8:6\n\
world 4 below 1 4:-6 5:6 7:6 8:-6\n\
end\n";

const PLANNED: &str = "argus certificate 2\n\
method MOD\n\
cells 9\n\
relations 6\n\
hidden 4 5 7 8\n\
step 1 0,0 4 4,5,7,8\n\
need 5 4 above 1 4:1\n\
need 7 4 above 1 3:-1 4:1 5:1\n\
need 8 4 above 1 3:-1 4:1\n\
world 4 above 1 4:6 5:-6 7:-6 8:6\n\
world 4 below 1 4:-6 5:6 7:6 8:-6\n\
end\n";

// Numbers at the ends of their ranges, and a complete table without moves.
const WIDE: &str = "argus certificate 2\n\
method RND -170141183460469231731687303715884105728\n\
cells 4294967295\n\
relations 0\n\
hidden 0 4294967295\n\
step 4294967295 0,1,2,3,4,5,6,4294967295 0 0,4294967295\n\
repair 0 0 below 170141183460469231731687303715884105727\n\
repair 0 0 above 1 0:-170141183460469231731687303715884105728 4294967295:170141183460469231731687303715884105727\n\
world 0 below 1\n\
world 0 below 2 4294967295:-1\n\
end\n";

// Two of them in the first version.
const REALISTIC_FIRST: &str = "argus certificate 1\n\
method MOD\n\
cells 6\n\
relations 3\n\
hidden 1 3 4 5\n\
step 1 0 4 1,4\n\
step 1 1 1 1,3\n\
need 1 4 above 1 0:1\n\
need 3 4 above 1 0:1 1:1\n\
world 4 above 1 -3 -3 3 3\n\
world 4 below 1 3 3 -3 -3\n\
world 5 above 1 -3 -3 3 3\n\
world 5 below 1 3 3 -3 -3\n\
end\n";

const WIDE_FIRST: &str = "argus certificate 1\n\
method RND -170141183460469231731687303715884105728\n\
cells 4294967295\n\
relations 0\n\
hidden 0 4294967295\n\
step 4294967295 0,1,2,3,4,5,6,4294967295 0 0,4294967295\n\
repair 0 0 below 170141183460469231731687303715884105727\n\
repair 0 0 above 1 0:-170141183460469231731687303715884105728 4294967295:170141183460469231731687303715884105727\n\
world 0 below 1 0 0\n\
world 0 below 2 0 -1\n\
end\n";

// How long the lists of a certificate are: hidden cells, steps, repairs, needs and complete tables.
fn lengths(certificate: &Certificate) -> [usize; 5] {
    [
        certificate.hidden.as_slice().len(),
        certificate.steps.as_slice().len(),
        certificate.repairs.as_slice().len(),
        certificate.needs.as_slice().len(),
        certificate.worlds.as_slice().len(),
    ]
}

// The lengths of the lists of a certificate, or the line and the fault for which a text is none.
type Reading = Result<[usize; 5], (u64, CertWhy)>;

// The lengths of the lists of the certificate that a text is, or its first fault.
fn answer(alloc: Global, text: &[u8]) -> Option<Reading> {
    match read_certificate(alloc, text) {
        Ok(certificate) => Some(Ok(lengths(&certificate))),
        Err(CertError::At { line, why }) => Some(Err((line, why))),
        Err(CertError::Memory) => None,
    }
}

// A text of a version with this line behind a head of four lines with two hidden cells.
fn with_line(alloc: Global, version: u8, line: &str) -> Result<String, Fail> {
    let text = format!(in alloc;
        "argus certificate {version}\nmethod MOD\ncells 6\nrelations 3\nhidden 1 3\n{line}\nend\n"
    )?;
    Ok(text)
}

// What is answered to that text.
fn answer_to_line(alloc: Global, version: u8, line: &str) -> Result<Option<Reading>, Fail> {
    let text = with_line(alloc, version, line)?;
    Ok(answer(alloc, text.as_bytes()))
}

// Whether a text is a certificate that is written as another text.
fn is_written_as(alloc: Global, text: &str, wanted: &str) -> bool {
    let Ok(certificate) = read_certificate(alloc, text.as_bytes()) else {
        return false;
    };
    let Ok(bytes) = write_certificate(alloc, &certificate) else {
        return false;
    };
    bytes.as_slice() == wanted.as_bytes()
}

const SECOND_VERSIONS: [&str; 5] = [FLAT, REPAIRED, PLANNED, REALISTIC, WIDE];

#[test]
fn certificates_are_written_as_they_were_read(rt: HostRuntime) {
    let alloc = rt.alloc();
    for text in &SECOND_VERSIONS {
        assert!(rt; is_written_as(alloc, text, text));
    }
}

// Certificates in the first and in the second version.
const BOTH_VERSIONS: [(&str, &str); 2] = [(REALISTIC_FIRST, REALISTIC), (WIDE_FIRST, WIDE)];

#[test]
fn first_versions_are_written_in_the_second(rt: HostRuntime) {
    let alloc = rt.alloc();
    for (first, second) in &BOTH_VERSIONS {
        assert!(rt; is_written_as(alloc, first, second));
    }
}

// Whether the head of the realistic certificate is read.
fn has_head(certificate: &Certificate) -> bool {
    certificate.method == Method::Modular
        && (certificate.cells, certificate.relations) == (6, 3)
        && certificate.hidden.as_slice() == [1, 3, 4, 5].as_slice()
}

// Whether its second step, need and complete table are.
fn has_step(certificate: &Certificate) -> bool {
    let Some(step) = certificate.steps.as_slice().get(1) else {
        return false;
    };
    (step.table, step.cell) == (0, 1)
        && step.parents.as_slice() == [1].as_slice()
        && step.corners.as_slice() == [1, 3].as_slice()
}

fn has_need(certificate: &Certificate) -> bool {
    let Some(need) = certificate.needs.as_slice().get(1) else {
        return false;
    };
    (need.subject, need.cell, need.side) == (3, 4, Side::Above)
        && need.multipliers.den == 1
        && need.multipliers.by_relation.as_slice() == [(0, 1), (1, 1)].as_slice()
}

fn has_world(certificate: &Certificate) -> bool {
    let Some(line) = certificate.worlds.as_slice().get(3) else {
        return false;
    };
    let moves = line.world.moves.as_slice();
    let Some(one) = moves.get(2) else {
        return false;
    };
    (line.cell, line.side, line.world.den) == (5, Side::Below, 1)
        && moves.len() == 4
        && (one.cell, one.by) == (4, -3)
}

// Whether a text is the realistic certificate in all of these.
fn is_realistic(alloc: Global, text: &str) -> bool {
    match read_certificate(alloc, text.as_bytes()) {
        Ok(certificate) => {
            has_head(&certificate)
                && has_step(&certificate)
                && has_need(&certificate)
                && has_world(&certificate)
        }
        Err(_) => false,
    }
}

#[test]
fn what_a_certificate_says(rt: HostRuntime) {
    assert!(rt; is_realistic(rt.alloc(), REALISTIC));
}

// Whether it is the first line of a version.
fn is_first_line(text: &[u8]) -> bool {
    text == b"argus certificate 1".as_slice() || text == b"argus certificate 2".as_slice()
}

// The first fault of a text that was cut off: its last line has no LF or isn't there, and its first words may be cut.
fn fault_of_cut(text: &[u8]) -> (u64, CertWhy) {
    let ends = text.iter().filter(|b| **b == b'\n').count() as u64;
    let why = match text.last() {
        None => CertWhy::NoEnd,
        Some(b'\n') => CertWhy::NoEnd,
        Some(_) if ends == 0 && !is_first_line(text) => CertWhy::Version,
        Some(_) => CertWhy::Shape,
    };
    (ends.saturating_add(1), why)
}

// Whether each front part of this text is refused at its last line.
fn are_cuts_refused(alloc: Global, text: &[u8]) -> bool {
    for end in 0..text.len() {
        let cut = &text[..end];
        if answer(alloc, cut) != Some(Err(fault_of_cut(cut))) {
            return false;
        }
    }
    true
}

#[test]
fn whole_certificate_is_read(rt: HostRuntime) {
    let found = answer(rt.alloc(), REALISTIC.as_bytes());
    assert_eq!(rt; found, Some(Ok([4, 2, 0, 2, 4])));
}

const CUT: [&str; 2] = [REALISTIC, REALISTIC_FIRST];

#[test]
fn each_cut_of_a_certificate_is_refused_at_its_last_line(rt: HostRuntime) {
    let alloc = rt.alloc();
    for text in &CUT {
        assert!(rt; are_cuts_refused(alloc, text.as_bytes()));
    }
}

// Texts and the answers to them.
const TEXTS: [(&str, Reading); 34] = [
    ("", Err((1, CertWhy::NoEnd))),
    ("argus certificate 1", Err((1, CertWhy::Shape))),
    ("argus certificate 1\n", Err((2, CertWhy::NoEnd))),
    ("argus certificate 2", Err((1, CertWhy::Shape))),
    ("argus certificate 2\n", Err((2, CertWhy::NoEnd))),
    ("argus certificate 3\n", Err((1, CertWhy::Version))),
    ("argus certificate 02\n", Err((1, CertWhy::Version))),
    ("argus certificate 1\r\n", Err((1, CertWhy::Version))),
    ("\n", Err((1, CertWhy::Version))),
    ("argus certificate 1\nmethod MOD", Err((2, CertWhy::Shape))),
    (
        "argus certificate 1\nmethod MOD\n",
        Err((3, CertWhy::NoEnd)),
    ),
    (
        "argus certificate 1\nmethod mod\n",
        Err((2, CertWhy::Shape)),
    ),
    (
        "argus certificate 1\nmethod MOD 1\n",
        Err((2, CertWhy::Shape)),
    ),
    ("argus certificate 1\nmethod GH\n", Err((2, CertWhy::Shape))),
    (
        "argus certificate 1\nmethod GH 4294967296\n",
        Err((2, CertWhy::Number)),
    ),
    (
        "argus certificate 1\nmethod GH 0\n",
        Err((3, CertWhy::NoEnd)),
    ),
    (
        "argus certificate 1\nmethod RND -5\n",
        Err((3, CertWhy::NoEnd)),
    ),
    (
        "argus certificate 1\nmethod RND -0\n",
        Err((2, CertWhy::Number)),
    ),
    (
        "argus certificate 1\nmethod RND -170141183460469231731687303715884105728\n",
        Err((3, CertWhy::NoEnd)),
    ),
    (
        "argus certificate 1\nmethod RND 170141183460469231731687303715884105728\n",
        Err((2, CertWhy::Number)),
    ),
    (
        "argus certificate 1\nmethod MOD\ncells 03\n",
        Err((3, CertWhy::Number)),
    ),
    (
        "argus certificate 1\nmethod MOD\ncells  3\n",
        Err((3, CertWhy::Shape)),
    ),
    (
        "argus certificate 1\nmethod MOD\ncells 3 \n",
        Err((3, CertWhy::Shape)),
    ),
    (
        "argus certificate 1\nmethod MOD\ncells 3\nend\n",
        Err((4, CertWhy::Shape)),
    ),
    (
        "argus certificate 1\nmethod MOD\ncells 3\nrelations 1\nend\n",
        Ok([0, 0, 0, 0, 0]),
    ),
    (
        "argus certificate 1\nmethod MOD\ncells 3\nrelations 1\nend",
        Err((5, CertWhy::Shape)),
    ),
    (
        "argus certificate 1\nmethod MOD\ncells 3\nrelations 1\n",
        Err((5, CertWhy::NoEnd)),
    ),
    (
        "argus certificate 1\nmethod MOD\ncells 3\nrelations 1\nend\n\n",
        Err((6, CertWhy::Shape)),
    ),
    (
        "argus certificate 1\nmethod MOD\ncells 3\nrelations 1\nend \n",
        Err((5, CertWhy::Shape)),
    ),
    (
        "argus certificate 1\nmethod MOD\ncells 3\nrelations 1\nhidden\nend\n",
        Err((5, CertWhy::Shape)),
    ),
    (
        "argus certificate 1\nmethod MOD\ncells 3\nrelations 1\nhidden \nend\n",
        Err((5, CertWhy::Number)),
    ),
    (
        "argus certificate 1\nmethod MOD\ncells 3\nrelations 1\nhidden 1  2\nend\n",
        Err((5, CertWhy::Number)),
    ),
    (
        "argus certificate 1\nmethod MOD\ncells 3\nrelations 1\nhidden 2 1 x\nend\n",
        Err((5, CertWhy::Number)),
    ),
    (
        "argus certificate 1\nmethod MOD\ncells 3\nrelations 1\nhidden 1 1\nend\n",
        Err((5, CertWhy::Order)),
    ),
];

#[test]
fn texts_and_their_first_faults(rt: HostRuntime) {
    let alloc = rt.alloc();
    for (text, wanted) in &TEXTS {
        assert_eq!(rt; answer(alloc, text.as_bytes()), Some(*wanted));
    }
}

// Lines of the first version behind the head, and the answers to them; the last two have kinds of lines out of order.
const LINES: [(&str, Reading); 35] = [
    ("step 1 0 4 1,4", Ok([2, 1, 0, 0, 0])),
    ("step 1 0,1,2,3,4,5,6,7 4 1", Ok([2, 1, 0, 0, 0])),
    ("step 1 0,1,2,3,4,5,6,7,8 4 1", Err((6, CertWhy::Shape))),
    ("step 0 0 4 1", Err((6, CertWhy::Number))),
    ("step 4294967295 0 4 1", Ok([2, 1, 0, 0, 0])),
    ("step 4294967296 0 4 1", Err((6, CertWhy::Number))),
    ("step 1  4 1", Err((6, CertWhy::Shape))),
    ("step 1 0 4 ", Err((6, CertWhy::Shape))),
    ("step 1 0 4", Err((6, CertWhy::Shape))),
    ("step 1 0,,1 4 1", Err((6, CertWhy::Number))),
    ("step 1 0 4 4,1", Err((6, CertWhy::Order))),
    ("step x 0 4 4,1", Err((6, CertWhy::Number))),
    ("step x 0 4 4,1 2", Err((6, CertWhy::Shape))),
    ("hidden 1 3", Err((6, CertWhy::Shape))),
    ("repair 1 4 above 1", Ok([2, 0, 1, 0, 0])),
    ("repair 1 4 above 1 0:1 2:-3", Ok([2, 0, 1, 0, 0])),
    ("repair 1 4 above 1 0:1 0:2", Err((6, CertWhy::Order))),
    ("repair 1 4 above 1 0:0", Err((6, CertWhy::Number))),
    ("repair 1 4 above 1 0", Err((6, CertWhy::Shape))),
    ("repair x 4 above 1 0", Err((6, CertWhy::Shape))),
    ("repair x 4 beyond 1 0:1", Err((6, CertWhy::Shape))),
    ("repair 1 4 above 0 0:1", Err((6, CertWhy::Number))),
    ("repair 1 4 above -1 0:1", Err((6, CertWhy::Number))),
    ("repair 1 4 above 1 0:1:2", Err((6, CertWhy::Number))),
    ("repair 1 4 above 1  0:1", Err((6, CertWhy::Shape))),
    ("need 1 4 below 7 3:2", Ok([2, 0, 0, 1, 0])),
    ("world 4 above 1 -3 0", Ok([2, 0, 0, 0, 1])),
    ("world 4 above 1 -3", Err((6, CertWhy::Shape))),
    ("world 4 above 1 -3 0 0", Err((6, CertWhy::Shape))),
    ("world 4 above 1 -3 +1", Err((6, CertWhy::Number))),
    ("world 4 above 1  -3", Err((6, CertWhy::Number))),
    ("worlds 4 above 1 -3 0", Err((6, CertWhy::Shape))),
    ("end", Err((7, CertWhy::Shape))),
    ("repair 1 4 above 1\nstep 1 0 4 1", Err((7, CertWhy::Shape))),
    (
        "world 4 above 1 0 0\nneed 1 4 above 1",
        Err((7, CertWhy::Shape)),
    ),
];

#[test]
fn lines_and_their_faults(rt: HostRuntime) -> Result<(), Fail> {
    let alloc = rt.alloc();
    for (line, wanted) in &LINES {
        assert_eq!(rt; answer_to_line(alloc, 1, line)?, Some(*wanted));
    }
    Ok(())
}

// Lines of complete tables in the second version.
const COMPLETE_TABLES: [(&str, Reading); 14] = [
    ("world 4 above 1", Ok([2, 0, 0, 0, 1])),
    ("world 4 above 1 1:-3 4:2", Ok([2, 0, 0, 0, 1])),
    ("world 4 above 1 4294967295:1", Ok([2, 0, 0, 0, 1])),
    ("world 4 above 1 4294967296:1", Err((6, CertWhy::Number))),
    ("world 4 above 1 1:0", Err((6, CertWhy::Number))),
    ("world 4 above 1 1:-0", Err((6, CertWhy::Number))),
    ("world 4 above 1 01:3", Err((6, CertWhy::Number))),
    ("world 4 above 0 1:3", Err((6, CertWhy::Number))),
    ("world 4 above 1 1:3 1:4", Err((6, CertWhy::Order))),
    ("world 4 above 1 3:1 1:3", Err((6, CertWhy::Order))),
    ("world 4 above 1 3:1 1:0", Err((6, CertWhy::Number))),
    ("world 4 above 1 -3 0", Err((6, CertWhy::Shape))),
    ("world x above 1 3:1 1", Err((6, CertWhy::Shape))),
    ("world 4 above 1 ", Err((6, CertWhy::Shape))),
];

#[test]
fn complete_tables_in_the_second_version(rt: HostRuntime) -> Result<(), Fail> {
    let alloc = rt.alloc();
    for (line, wanted) in &COMPLETE_TABLES {
        assert_eq!(rt; answer_to_line(alloc, 2, line)?, Some(*wanted));
    }
    Ok(())
}
