use cell_listing::list_cells;
use office_io::MemoryShelf;
use sdc_base::{Memory, Text};
use std::alloc::Global;
use std::rt::HostRuntime;
use std::test::Fail;

const JOB: &[u8] =
    b"<OPENMICRODATA> \"m.asc\"\n<OPENMETADATA> \"m.rda\"\n<SPECIFYTABLE> \"A\"|\"V\"\n<SAFETYRULE> FREQ(2,30)|P(10)\n<APRIORI> \"p.hst\",1,\";\"\n<SUPPRESS> MOD()\n<WRITETABLE> (1,\"t.csv\")\n<CERTIFICATE> \"t.cert\"\n";

const METADATA: &[u8] = b"A 1 2\n<RECODEABLE>\nV 3 4\n<NUMERIC>\n<DECIMALS> 1\n";

// Codes with a comma, with a quote and with bytes that aren't text.
const RECORDS: &[u8] = b"a,10.5\na, 2.0\n\"b 7.0\n\xff\xe9 3.5\n\xff\xe9 3.5\n";

const PRIORS: &[u8] = b"\"b;s\nTotal;p\nTotal;b;20;40.5\n\xff\xe9;c;12\n";

const LISTING: &[u8] =
    b"cell,tables,A,value,records,largest,second,status,rules,up,down,price,low,high\n0,1,Total,26.5,5,10.5,7.0,fixed,,0.0,0.0,266,20.0,40.5\n1,1,\"\"\"b\",7.0,1,7.0,0.0,free,FREQ P,0.0,0.0,71,0.0,\n2,1,\"a,\",12.5,2,10.5,2.0,primary,P,1.1,1.1,126,0.0,\n3,1,\xff\xe9,7.0,2,3.5,3.5,primary,P,0.4,0.4,12,0.0,\n";

// The names of the files of the job, and what they hold.
const FILES: [(&[u8], &[u8]); 4] = [
    (b"r.job", JOB),
    (b"m.rda", METADATA),
    (b"m.asc", RECORDS),
    (b"p.hst", PRIORS),
];

// A shelf with the files of the job.
fn shelf_of_job(alloc: Global) -> Result<MemoryShelf, Memory> {
    let mut files = Vec::new(alloc);
    for (file, bytes) in &FILES {
        let held = Vec::from_slice(alloc, *bytes)?;
        files.push((Text::from_slice(alloc, file)?, held))?;
    }
    Ok(MemoryShelf::new(files, Vec::new(alloc), 7))
}

// Whether this is the listing of the job.
fn lists(alloc: Global, listing: &[u8]) -> Result<bool, Memory> {
    let words = texts_of(alloc, &[b"r.job"])?;
    let mut shelf = shelf_of_job(alloc)?;
    let said = list_cells(alloc, words.as_slice(), &mut shelf);
    Ok(said.is_ok_and(|bytes| bytes.as_slice() == listing))
}

// The words, each of them a text.
pub(crate) fn texts_of(alloc: Global, words: &[&[u8]]) -> Result<Vec<Text>, Memory> {
    let mut texts = Vec::new(alloc);
    for word in words {
        texts.push(Text::from_slice(alloc, word)?)?;
    }
    Ok(texts)
}

#[test]
fn listing(rt: HostRuntime) -> Result<(), Fail> {
    assert!(rt; lists(rt.alloc(), LISTING)?);
    Ok(())
}
