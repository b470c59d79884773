use office_io::{
    BeginFault, Failed, FileFault, MemoryShelf, MemoryTray, PutFault, Shelf, Tray, read_all,
};
use sdc_base::Text;
use std::alloc::{AllocError, Global};
use std::rt::HostRuntime;
use std::test::Fail;

// Each byte is the remainder of its place's square by 251, so a byte that is skipped or given
// twice is seen.
fn long_file(alloc: Global) -> Result<Vec<u8>, AllocError> {
    let mut bytes = Vec::new(alloc);
    for i in 0..10_000u64 {
        bytes.push((i * i % 251) as u8)?;
    }
    Ok(bytes)
}

// A shelf of an empty file, a short one and these bytes as `long`.
fn shelf_of(
    alloc: Global,
    bytes: &[u8],
    failing: &[u64],
    piece: u32,
) -> Result<MemoryShelf, AllocError> {
    let mut files = Vec::new(alloc);
    files.push((Text::from_slice(alloc, b"empty")?, Vec::new(alloc)))?;
    files.push((Text::from_slice(alloc, b"short")?, b"abc".to_vec(alloc)?))?;
    files.push((Text::from_slice(alloc, b"long")?, bytes.to_vec(alloc)?))?;
    Ok(MemoryShelf::new(files, failing.to_vec(alloc)?, piece.max(1)))
}

// Whether a read of the long file from pieces of this size fails at this call or, where it makes fewer calls, gives the
// bytes of the file.
fn fails_at(
    alloc: Global,
    bytes: &[u8],
    piece: u32,
    calls: u64,
    failing: u64,
) -> Result<bool, AllocError> {
    let mut shelf = shelf_of(alloc, bytes, &[failing], piece)?;
    let got = read_all(
        alloc,
        &mut shelf,
        &Text::from_slice(alloc, b"long")?,
        20_000,
    );
    if failing <= calls {
        return Ok(got.err() == Some(FileFault::Failed));
    }
    Ok(got.is_ok_and(|read| read.as_slice() == bytes))
}

// Whether a read of pieces of this size is tried with this call failing.
fn is_tried(piece: u32, failing: u64) -> bool {
    piece != 1 || failing <= 3 || failing >= 10_000 || failing % 997 == 0
}

// Whether a read of the long file fails at each call that is tried.
fn fails_at_each(alloc: Global, bytes: &[u8], piece: u32, calls: u64) -> Result<bool, AllocError> {
    for failing in 1..calls.saturating_add(2) {
        if is_tried(piece, failing) && !fails_at(alloc, bytes, piece, calls, failing)? {
            return Ok(false);
        }
    }
    Ok(true)
}

// The sizes of pieces, and how many calls a read of the long file makes by each.
const CALLS: [(u32, u64); 3] = [(4096, 5), (7, 1431), (1, 10_002)];

// A read of 10,000 bytes makes one call to begin, one for each piece, and one that finds the end.
// A piece is never longer than 4,096 bytes. By pieces of one byte the first calls fail in turn, the
// last ones, and every 997th between them, since all would take minutes.
#[test]
fn each_call_fails_in_turn(rt: HostRuntime) -> Result<(), Fail> {
    let bytes = long_file(rt.alloc())?;
    for (piece, calls) in &CALLS {
        assert!(rt; fails_at_each(rt.alloc(), &bytes, *piece, *calls)?);
    }
    Ok(())
}

// What a shelf answers when a file is begun, or, with no name, the bytes that a read gives.
fn answer(
    alloc: Global,
    shelf: &mut MemoryShelf,
    name: Option<&[u8]>,
) -> Result<Vec<u8>, AllocError> {
    let Some(name) = name else {
        let mut buffer = [0u8; 4];
        return match shelf.read(&mut buffer) {
            Ok(n) => buffer[..n].to_vec(alloc),
            Err(Failed) => b"failed".to_vec(alloc),
        };
    };
    match shelf.begin(&Text::from_slice(alloc, name)?) {
        Ok(()) => b"begun".to_vec(alloc),
        Err(BeginFault::Absent) => b"absent".to_vec(alloc),
        Err(BeginFault::Failed) => b"failed".to_vec(alloc),
    }
}

// Whether the shelf answers this.
fn answers(
    alloc: Global,
    shelf: &mut MemoryShelf,
    name: Option<&[u8]>,
    want: &[u8],
) -> Result<bool, AllocError> {
    let got = answer(alloc, shelf, name)?;
    Ok(got.as_slice() == want)
}

// The names by which files are begun or, with no name, the reads of a shelf, and what it answers.
const ANSWERS: [(Option<&[u8]>, &[u8]); 12] = [
    (Some(b"short"), b"failed"),
    (None, b""),
    (Some(b"missing"), b"failed"),
    (Some(b"short"), b"begun"),
    (None, b"ab"),
    (None, b"c"),
    (None, b""),
    (None, b"failed"),
    (Some(b"missing"), b"absent"),
    (None, b""),
    (Some(b"short"), b"begun"),
    (None, b"ab"),
];

// Every answer of a shelf that fails at calls 1, 3 and 8, over both functions, by pieces of 2.
#[test]
fn calls_are_counted_over_both(rt: HostRuntime) -> Result<(), Fail> {
    let mut shelf = shelf_of(rt.alloc(), b"", &[8, 1, 3], 2)?;
    for (name, want) in &ANSWERS {
        assert!(rt; answers(rt.alloc(), &mut shelf, *name, want)?);
    }
    Ok(())
}

// The names of files, the most bytes that are read, and the fault.
const LIMITS: [(&[u8], u32, Option<FileFault>); 9] = [
    (b"long", 9_999, Some(FileFault::TooLong)),
    (b"long", 10_000, None),
    (b"long", 10_001, None),
    (b"short", 2, Some(FileFault::TooLong)),
    (b"short", 3, None),
    (b"short", 0, Some(FileFault::TooLong)),
    (b"empty", 0, None),
    (b"missing", 10, Some(FileFault::Absent)),
    (b"shor", 10, Some(FileFault::Absent)),
];

// Whether a shelf with pieces of this size keeps to the limits, each file read behind the one before it.
fn are_limited(alloc: Global, bytes: &[u8], piece: u32) -> Result<bool, AllocError> {
    let mut shelf = shelf_of(alloc, bytes, &[], piece)?;
    for (name, limit, fault) in &LIMITS {
        let got = read_all(
            alloc,
            &mut shelf,
            &Text::from_slice(alloc, name)?,
            u64::from(*limit),
        );
        if got.err() != *fault {
            return Ok(false);
        }
    }
    Ok(true)
}

const PIECES: [u32; 4] = [1, 7, 4_096, 100_000];

#[test]
fn limits(rt: HostRuntime) -> Result<(), Fail> {
    let bytes = long_file(rt.alloc())?;
    for piece in &PIECES {
        assert!(rt; are_limited(rt.alloc(), &bytes, *piece)?);
    }
    Ok(())
}

// Whether the file of this name holds these bytes, or isn't there.
fn holds(
    alloc: Global,
    tray: &MemoryTray,
    name: &str,
    held: Option<&[u8]>,
) -> Result<bool, AllocError> {
    let name = Text::from_slice(alloc, name.as_bytes())?;
    Ok(tray.file(&name) == held)
}

// The name and the bytes that are put, the fault, and what the table then holds.
#[derive(Clone, Copy)]
struct Put {
    name: &'static str,
    bytes: &'static str,
    fault: Option<PutFault>,
    held: &'static str,
}

const PUTS: [Put; 5] = [
    Put {
        name: "table",
        bytes: "first",
        fault: None,
        held: "first",
    },
    Put {
        name: "report",
        bytes: "",
        fault: None,
        held: "first",
    },
    Put {
        name: "table",
        bytes: "replace",
        fault: Some(PutFault::Failed),
        held: "rep",
    },
    Put {
        name: "table",
        bytes: "replaced",
        fault: None,
        held: "replaced",
    },
    Put {
        name: "report",
        bytes: "x",
        fault: Some(PutFault::Failed),
        held: "replaced",
    },
];

// Puts the bytes, and says whether the answer is this and the table holds this.
fn is_put(alloc: Global, tray: &mut MemoryTray, put: &Put) -> Result<bool, AllocError> {
    let name = Text::from_slice(alloc, put.name.as_bytes())?;
    let answer = tray.put(&name, put.bytes.as_bytes());
    Ok(answer.err() == put.fault && holds(alloc, tray, "table", Some(put.held.as_bytes()))?)
}

// Puts 3 and 5 fail: they keep the first half of the bytes, rounded down.
#[test]
fn puts(rt: HostRuntime) -> Result<(), Fail> {
    let alloc = rt.alloc();
    let mut tray = MemoryTray::new(alloc, vec![in alloc; 5u64, 3]?);
    assert!(rt; holds(alloc, &tray, "table", None)?);
    for put in &PUTS {
        assert!(rt; is_put(alloc, &mut tray, put)?);
    }
    assert!(rt; holds(alloc, &tray, "report", Some(b""))?);
    Ok(())
}
