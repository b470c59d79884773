use crate::listed_tests::texts_of;
use cell_listing::{IntervalFault, ListingStop, list_asked, list_relations, relations_listing_for};
use job_check::CheckStop;
use job_inputs::{Fault, FileRef, InputStop, Purpose, read_settled};
use office_io::MemoryShelf;
use sdc_base::{Memory, Text};
use std::alloc::Global;
use std::rt::HostRuntime;
use std::test::Fail;

// A file of a shelf: its name, and what it holds.
type File = (&'static [u8], &'static [u8]);

// A table by two variables, in which one cell is primary and the plan hides three more.
const TWO_WAY: &[File] = &[
    (
        b"r.job",
        b"<OPENMICRODATA> \"m.asc\"\n<OPENMETADATA> \"m.rda\"\n<SPECIFYTABLE> \"A\"\"B\"|\"V\"\n<SAFETYRULE> FREQ(3,30)\n<SUPPRESS> MOD()\n<WRITETABLE> (1,\"t.csv\")\n<CERTIFICATE> \"t.cert\"\n",
    ),
    (
        b"m.rda",
        b"A 1 2\n<RECODEABLE>\nB 3 2\n<RECODEABLE>\nV 5 3\n<NUMERIC>\n",
    ),
    (
        b"m.asc",
        b"a1b1 10\na1b1 10\na1b2 10\na1b2 10\na1b2 10\na1b2 20\na2b1  5\na2b1  5\na2b1 10\na2b1 10\na2b2 15\na2b2 10\na2b2 15\n",
    ),
    (
        b"t.cert",
        b"argus certificate 2\nmethod MOD\ncells 9\nrelations 6\nhidden 4 5 7 8\nstep 1 0,0 4 4,5,7,8\nneed 5 4 above 1 4:1\nneed 7 4 above 1 2:1\nneed 8 4 above 1 2:1 5:-1\nworld 4 above 1 4:6 5:-6 7:-6 8:6\nworld 4 below 1 4:-6 5:6 7:6 8:-6\nend\n",
    ),
    (
        b"t.csv",
        b"A,B,V\nTotal,Total,140\nTotal,b1,50\nTotal,b2,90\na1,Total,70\na1,b1,x\na1,b2,x\na2,Total,70\na2,b1,x\na2,b2,x\n",
    ),
];

const TWO_WAY_LISTING: &[u8] =
    b"cell,tables,A,B,value,records,largest,second,status,rules,up,down,price,low,high,release,origin\n0,1,Total,Total,140,13,20,15,free,,0,0,141,0,,shown,\n1,1,Total,b1,50,6,10,10,free,,0,0,51,0,,shown,\n2,1,Total,b2,90,7,20,15,free,,0,0,91,0,,shown,\n3,1,a1,Total,70,6,20,10,free,,0,0,71,0,,shown,\n4,1,a1,b1,20,2,10,10,primary,FREQ,6,6,21,0,,hidden,primary\n5,1,a1,b2,50,4,20,10,free,,0,0,51,0,,hidden,step\n6,1,a2,Total,70,7,15,15,free,,0,0,71,0,,shown,\n7,1,a2,b1,30,4,10,10,free,,0,0,31,0,,hidden,step\n8,1,a2,b2,40,3,15,15,free,,0,0,41,0,,hidden,step\n";

// Two tables that share their total, each with a primary cell.
const LINKED: &[File] = &[
    (
        b"r.job",
        b"<OPENMICRODATA> \"m.asc\"\n<OPENMETADATA> \"m.rda\"\n<SPECIFYTABLE> \"A\"|\"V\"\n<SPECIFYTABLE> \"B\"|\"V\"\n<SAFETYRULE> FREQ(3,30)\n<SUPPRESS> MOD()\n<WRITETABLE> (1,\"t.csv\")\n<WRITETABLE> (2,\"u.csv\")\n<CERTIFICATE> \"t.cert\"\n",
    ),
    (
        b"m.rda",
        b"A 1 2\n<RECODEABLE>\nB 3 2\n<RECODEABLE>\nV 5 3\n<NUMERIC>\n",
    ),
    (
        b"m.asc",
        b"a1b2 10\na1b2 10\na2b1 20\na2b1 10\na2b2 15\na2b2  5\na2b2 10\n",
    ),
    (
        b"t.cert",
        b"argus certificate 2\nmethod MOD\ncells 5\nrelations 2\nhidden 1 2 3 4\nstep 1 0 1 1,2\nstep 2 0 3 3,4\nneed 2 1 above 1 0:1\nneed 4 3 above 1 1:1\nworld 1 above 1 1:6 2:-6\nworld 1 below 1 1:-6 2:6\nworld 3 above 1 3:9 4:-9\nworld 3 below 1 3:-9 4:9\nend\n",
    ),
    (b"t.csv", b"A,V\nTotal,80\na1,x\na2,x\n"),
    (b"u.csv", b"B,V\nTotal,80\nb1,x\nb2,x\n"),
];

const LINKED_CELLS: &[u8] =
    b"cell,tables,A,B,value,records,largest,second,status,rules,up,down,price,low,high\n0,1 2,Total,Total,80,7,20,15,free,,0,0,81,0,\n1,1,a1,Total,20,2,10,10,primary,FREQ,6,6,21,0,\n2,1,a2,Total,60,5,20,15,free,,0,0,61,0,\n3,2,Total,b1,30,2,20,10,primary,FREQ,9,9,31,0,\n4,2,Total,b2,50,5,15,10,free,,0,0,51,0,\n";

// The words that ask for the cells of a job, for those of its release, for the relations between them, and for those of its
// release with their intervals.
const CELLS: &[&[u8]] = &[b"r.job"];

const RELEASED: &[&[u8]] = &[b"r.job", b"--released"];

const RELATIONS: &[&[u8]] = &[b"r.job", b"--relations"];

const INTERVALS: &[&[u8]] = &[b"r.job", b"--released", b"--intervals", b"t.int"];

// The file of intervals, and the lines of the release with the ends of each hidden cell.
const TWO_WAY_INTERVALS: &[u8] = b"cell,low,high\n4,0,50\n5,20,70\n7,0,50\n8,20,70\n";

const TWO_WAY_WITH_INTERVALS: &[u8] =
    b"cell,tables,A,B,value,records,largest,second,status,rules,up,down,price,low,high,release,origin,interval_low,interval_high\n0,1,Total,Total,140,13,20,15,free,,0,0,141,0,,shown,,,\n1,1,Total,b1,50,6,10,10,free,,0,0,51,0,,shown,,,\n2,1,Total,b2,90,7,20,15,free,,0,0,91,0,,shown,,,\n3,1,a1,Total,70,6,20,10,free,,0,0,71,0,,shown,,,\n4,1,a1,b1,20,2,10,10,primary,FREQ,6,6,21,0,,hidden,primary,0,50\n5,1,a1,b2,50,4,20,10,free,,0,0,51,0,,hidden,step,20,70\n6,1,a2,Total,70,7,15,15,free,,0,0,71,0,,shown,,,\n7,1,a2,b1,30,4,10,10,free,,0,0,31,0,,hidden,step,0,50\n8,1,a2,b2,40,3,15,15,free,,0,0,41,0,,hidden,step,20,70\n";

// What is asked, the files of a job or of its release, and the listing.
#[derive(Clone, Copy)]
struct Listing {
    asked: &'static [&'static [u8]],
    files: &'static [File],
    listing: &'static [u8],
}

// One listing of each kind. All others are in the cases of the folder `cases`, and what is said where there is none.
const LISTINGS: [Listing; 4] = [
    Listing {
        asked: CELLS,
        files: LINKED,
        listing: LINKED_CELLS,
    },
    Listing {
        asked: RELEASED,
        files: TWO_WAY,
        listing: TWO_WAY_LISTING,
    },
    Listing {
        asked: RELATIONS,
        files: TWO_WAY,
        listing: b"relation,total,variable,parts\n0,0,A,3 6\n1,0,B,1 2\n2,1,A,4 7\n3,2,A,5 8\n4,3,B,4 5\n5,6,B,7 8\n",
    },
    Listing {
        asked: INTERVALS,
        files: TWO_WAY,
        listing: TWO_WAY_WITH_INTERVALS,
    },
];

// The files and the file of intervals, but for the one of this name.
fn held_without(
    alloc: Global,
    files: &[File],
    name: &[u8],
) -> Result<Vec<(Text, Vec<u8>)>, Memory> {
    let mut held = Vec::new(alloc);
    for (file, bytes) in files {
        if *file != name {
            let holds = Vec::from_slice(alloc, *bytes)?;
            held.push((Text::from_slice(alloc, file)?, holds))?;
        }
    }
    let intervals = Vec::from_slice(alloc, TWO_WAY_INTERVALS)?;
    held.push((Text::from_slice(alloc, b"t.int")?, intervals))?;
    Ok(held)
}

// What is said of the files, but for the one of this name, to words.
fn answer(
    alloc: Global,
    asked: &[&[u8]],
    files: &[File],
    name: &[u8],
) -> Result<Result<Vec<u8>, ListingStop>, Memory> {
    let words = texts_of(alloc, asked)?;
    let held = held_without(alloc, files, name)?;
    let mut shelf = MemoryShelf::new(held, Vec::new(alloc), 7);
    Ok(list_asked(alloc, words.as_slice(), &mut shelf))
}

// Whether what is asked is answered by the listing.
fn lists(alloc: Global, given: &Listing) -> Result<bool, Memory> {
    let said = answer(alloc, given.asked, given.files, b"")?;
    Ok(said.is_ok_and(|bytes| bytes.as_slice() == given.listing))
}

#[test]
fn listings(rt: HostRuntime) -> Result<(), Fail> {
    for given in &LISTINGS {
        assert!(rt; lists(rt.alloc(), given)?);
    }
    Ok(())
}

// Words, the file of the two-way table that isn't there, and why there is no listing.
const STOPS: [(&[&[u8]], &[u8], ListingStop); 3] = [
    (&[], b"", ListingStop::Usage),
    (
        INTERVALS,
        b"t.cert",
        ListingStop::Stopped(CheckStop::Inputs(InputStop::Refused(Fault::Absent(
            FileRef::Certificate,
        )))),
    ),
    (
        &[b"r.job", b"--released", b"--intervals", b"none"],
        b"",
        ListingStop::Intervals(IntervalFault::Absent),
    ),
];

// Why there is no listing of the two-way table without the file of this name.
fn stop_of(alloc: Global, asked: &[&[u8]], name: &[u8]) -> Result<Option<ListingStop>, Memory> {
    let said = answer(alloc, asked, TWO_WAY, name)?;
    Ok(said.err())
}

#[test]
fn stops(rt: HostRuntime) -> Result<(), Fail> {
    for (asked, name, wanted) in &STOPS {
        assert_eq!(rt; stop_of(rt.alloc(), asked, name)?, Some(*wanted));
    }
    Ok(())
}

// Why there is no listing with intervals where the call of this number fails, on a shelf that gives each file by one read.
fn stop_at(alloc: Global, call: u64) -> Result<Option<ListingStop>, Memory> {
    let words = texts_of(alloc, INTERVALS)?;
    let held = held_without(alloc, TWO_WAY, b"")?;
    let mut failing = Vec::new(alloc);
    failing.push(call)?;
    let mut shelf = MemoryShelf::new(held, failing, 4096);
    Ok(list_asked(alloc, words.as_slice(), &mut shelf).err())
}

// The job, its four files and then the intervals are read by three calls each: one for the name, one that gives the bytes,
// and one that gives none.
#[test]
fn intervals_unread(rt: HostRuntime) -> Result<(), Fail> {
    let failed = Some(ListingStop::Intervals(IntervalFault::Failed));
    for call in 16..19 {
        assert_eq!(rt; stop_at(rt.alloc(), call)?, failed);
    }
    assert!(rt;
        matches!(
            stop_at(rt.alloc(), 15)?,
            Some(ListingStop::Stopped(CheckStop::Inputs(InputStop::ReadFault(_))))
        )
    );
    assert_eq!(rt; stop_at(rt.alloc(), 19)?, None);
    Ok(())
}

// The listing of the relations of the job of the files, from its name.
fn relations_by_name(alloc: Global, files: &[File]) -> Result<Option<Vec<u8>>, Memory> {
    let name = Text::from_slice(alloc, b"r.job")?;
    let held = held_without(alloc, files, b"")?;
    let mut shelf = MemoryShelf::new(held, Vec::new(alloc), 7);
    Ok(list_relations(alloc, &mut shelf, &name).ok())
}

// The same from the job itself, once it is read.
fn relations_of_job(alloc: Global, files: &[File]) -> Result<Option<Vec<u8>>, Memory> {
    let name = Text::from_slice(alloc, b"r.job")?;
    let held = held_without(alloc, files, b"")?;
    let mut shelf = MemoryShelf::new(held, Vec::new(alloc), 7);
    match read_settled(alloc, &mut shelf, &name, Purpose::Release) {
        Ok(job) => Ok(Some(relations_listing_for(alloc, &job)?)),
        Err(_) => Ok(None),
    }
}

#[test]
fn relations_of_one_job(rt: HostRuntime) -> Result<(), Fail> {
    let wanted = b"relation,total,variable,parts\n0,0,A,1 2\n1,0,B,3 4\n".as_slice();
    let by_name = relations_by_name(rt.alloc(), LINKED)?;
    assert!(rt; by_name.is_some_and(|bytes| bytes.as_slice() == wanted));
    let of_job = relations_of_job(rt.alloc(), LINKED)?;
    assert!(rt; of_job.is_some_and(|bytes| bytes.as_slice() == wanted));
    Ok(())
}
