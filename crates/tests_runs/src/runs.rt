use job_run::{Report, report_text, run};
use office_io::{MemoryShelf, MemoryTray};
use sdc_base::{Memory, Text};
use std::alloc::Global;

// How a shelf gives its files: in pieces of so many bytes, and which of its calls fails.
//
// Calls count from 1; where it is 0, none fails.
#[derive(Clone, Copy)]
pub(crate) struct Pieces {
    pub(crate) bytes: u32,
    pub(crate) failing: u64,
}

// Files in pieces of 4,096 bytes, on a shelf none of whose calls fails.
pub(crate) const WHOLE_FILES: Pieces = Pieces {
    bytes: 4096,
    failing: 0,
};

// These files, each its name and its bytes.
fn files_of(alloc: Global, given: &[(&str, &str)]) -> Result<Vec<(Text, Vec<u8>)>, Memory> {
    let mut files = Vec::new(alloc);
    for (name, bytes) in given {
        let bytes = Vec::from_slice(alloc, bytes.as_bytes())?;
        files.push((Text::from_slice(alloc, name.as_bytes())?, bytes))?;
    }
    Ok(files)
}

// The status and the text of a report.
pub(crate) fn status_and_text(alloc: Global, report: &Report) -> Result<String, Memory> {
    let line = report_text(alloc, report)?;
    let status = report.status();
    let line = str::from_utf8(line.as_slice()).unwrap_or("no text");
    Ok(format!(in alloc; "{status} {line}")?)
}

// The bytes that the tray holds for the certificate, the contributors' file, the two tables and the intervals.
fn bytes_on(alloc: Global, tray: &MemoryTray) -> Result<String, Memory> {
    let mut held = String::new(alloc);
    for name in ["t.cert", "t.con", "t.csv", "u.csv", "out.csv"] {
        let name = Text::from_slice(alloc, name.as_bytes())?;
        let bytes = tray.file(&name).unwrap_or(b"");
        held.push_str(str::from_utf8(bytes).unwrap_or("no text"))?;
    }
    Ok(held)
}

// What a run of these words says, and then what the tray holds.
pub(crate) fn run_words(
    alloc: Global,
    words: &[&str],
    files: &[(&str, &str)],
    pieces: Pieces,
    tray: &mut MemoryTray,
) -> Result<String, Memory> {
    let files = files_of(alloc, files)?;
    let failing = vec![in alloc; pieces.failing]?;
    let mut shelf = MemoryShelf::new(files, failing, pieces.bytes.max(1));
    run_on(alloc, words, &mut shelf, tray)
}

// What a run of these words over this shelf says, and then what the tray holds.
fn run_on(
    alloc: Global,
    words: &[&str],
    shelf: &mut MemoryShelf,
    tray: &mut MemoryTray,
) -> Result<String, Memory> {
    let words = texts_of(alloc, words)?;
    let said = said_of_run(alloc, words.as_slice(), shelf, tray)?;
    let held = bytes_on(alloc, tray)?;
    Ok(format!(in alloc; "{said}{held}")?)
}

// These words as texts.
fn texts_of(alloc: Global, words: &[&str]) -> Result<Vec<Text>, Memory> {
    let mut texts = Vec::new(alloc);
    for word in words {
        texts.push(Text::from_slice(alloc, word.as_bytes())?)?;
    }
    Ok(texts)
}

// The status and the text of a run of these words.
fn said_of_run(
    alloc: Global,
    words: &[Text],
    shelf: &mut MemoryShelf,
    tray: &mut MemoryTray,
) -> Result<String, Memory> {
    let report = run(alloc, words, shelf, tray);
    status_and_text(alloc, &report)
}

// What the job `r.job` says and leaves on an empty tray, one of whose puts fails.
pub(crate) fn run_alone(
    alloc: Global,
    files: &[(&str, &str)],
    pieces: Pieces,
    failing: u64,
) -> Result<String, Memory> {
    let mut tray = MemoryTray::new(alloc, vec![in alloc; failing]?);
    run_words(alloc, &["run", "r.job"], files, pieces, &mut tray)
}

// What the job `r.job` says and leaves on an empty tray, whether its files come whole or byte by byte; both answers
// where these differ.
pub(crate) fn run_either_way(alloc: Global, files: &[(&str, &str)]) -> Result<String, Memory> {
    let single = Pieces {
        bytes: 1,
        failing: 0,
    };
    let whole = run_alone(alloc, files, WHOLE_FILES, 0)?;
    let by_byte = run_alone(alloc, files, single, 0)?;
    if whole.as_str() == by_byte.as_str() {
        return Ok(whole);
    }
    Ok(format!(in alloc; "{whole} whole, byte by byte {by_byte}")?)
}

// What these words say of files on a shelf, and then what is put on an empty tray.
pub(crate) fn run_over(
    alloc: Global,
    words: &[&str],
    files: &[(&str, &str)],
) -> Result<String, Memory> {
    let mut tray = MemoryTray::new(alloc, Vec::new(alloc));
    run_words(alloc, words, files, WHOLE_FILES, &mut tray)
}
