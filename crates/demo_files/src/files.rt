ghost use Rattle.std.specs.Prelude.{◌≡◌, IfOk};
ghost use Rattle.office_io.specs.Files.{file_of};
ghost use Rattle.demo_files.specs.DemoFiles as spec;

use crate::survey::survey;
use sdc_base::{Memory, Text};
use std::alloc::Global;

// The job: two linked tables over the survey.
const JOB: &str = "<OPENMICRODATA> \"demo.asc\"
<OPENMETADATA> \"demo.rda\"
<SPECIFYTABLE> \"Region\"\"Industry\"|\"Value\"
<SPECIFYTABLE> \"Region\"\"Size\"|\"Value\"
<SAFETYRULE> FREQ(3,30)|P(10)
<COST> VALUE
<READMICRODATA>
<SUPPRESS> MOD()
<WRITETABLE> (1,\"industry.csv\")
<WRITETABLE> (2,\"size.csv\")
<CERTIFICATE> \"demo.cert\"
";

// Where each variable stands in a record.
const METADATA: &str = "Region 1 3
<RECODEABLE>
<HIERARCHICAL>
<HIERCODELIST> \"region.hrc\"
<HIERLEADSTRING> @
Industry 4 2
<RECODEABLE>
<HIERARCHICAL>
<HIERLEVELS> 1 1
Size 6 2
<RECODEABLE>
Value 8 7
<NUMERIC>
";

// Three provinces of four regions each.
const REGIONS: &str = "P1
@R01
@R02
@R03
@R04
P2
@R05
@R06
@R07
@R08
P3
@R09
@R10
@R11
@R12
";

/// The files of a survey of so many records, drawn from a seed: the job `demo.job`, its metadata `demo.rda`, the
/// hierarchy `region.hrc` and the microdata `demo.asc`, each with its name. The same seed gives the same files.
///
/// A record of 14 bytes has a region of three provinces, an industry by letter and digit, a size, and a turnover from 1
/// to 10,000, of which one in twenty is 50 times as great. Each is drawn by a linear congruential generator of 64 bits
/// with Knuth's constants, six draws a record. The files are argus's own.
///
/// The cost is that of the records; `Memory` is the only refusal.
pub fn demo_files(alloc: Global, seed: u64, records: u32) -> Result<Vec<(Text, Vec<u8>)>, Memory>
    ensures { IfOk result (λ files. file_of files.items ≡ spec.demo_files seed records) }
{
    let mut files = Vec::new(alloc);
    files.push(file(alloc, "demo.job", JOB)?)?;
    files.push(file(alloc, "demo.rda", METADATA)?)?;
    files.push(file(alloc, "region.hrc", REGIONS)?)?;
    files.push((
        text_named(alloc, "demo.asc")?,
        survey(alloc, seed, records)?,
    ))?;
    Ok(files)
}

// A file of this name that holds this text.
fn file(alloc: Global, name: &str, text: &str) -> Result<(Text, Vec<u8>), Memory>
    ensures name { IfOk result (λ file. file.0 ≡ name.now) }
    ensures text { IfOk result (λ file. file.1.items ≡ text.now) }
{
    let bytes = Vec::from_slice(alloc, text.as_bytes())?;
    Ok((text_named(alloc, name)?, bytes))
}

// A name as a text.
fn text_named(alloc: Global, name: &str) -> Result<Text, Memory>
    ensures { IfOk result (λ text. text ≡ name.now) }
{
    Ok(Text::from_slice(alloc, name.as_bytes())?)
}
