// A job of one table.
pub(crate) const ONE_TABLE: &str =
    "<OPENMICRODATA> \"m.asc\"\n<OPENMETADATA> \"m.rda\"\n<SPECIFYTABLE> \"A\"|\"V\"\n<SAFETYRULE> FREQ(3,30)\n<READMICRODATA>\n<SUPPRESS> MOD()\n<WRITETABLE> (1,\"t.csv\")\n<CERTIFICATE> \"t.cert\"\n";

// Its metadata: one variable, and the response.
pub(crate) const ONE_VARIABLE: &str = "A 1 1\n<RECODEABLE>\nV 2 3\n<NUMERIC>\n";

// Its records.
pub(crate) const SEVEN_RECORDS: &str = "a 10\na 20\na 30\nb 20\nb 20\nb 20\nb 30\n";

// What is said of the seven records, and then the certificate and the table.
pub(crate) const ONE_TABLE_RELEASED: &str =
    "0 released: 7 records, 0 skipped, 0 passed over, 3 cells, 0 primary, 0 hidden\nargus certificate 2\nmethod MOD\ncells 3\nrelations 1\nend\nA,V\nTotal,150\na,60\nb,90\n";

// Metadata of three variables, and the response.
pub(crate) const THREE_VARIABLES: &str =
    "A 1 2\n<RECODEABLE>\nB 3 2\n<RECODEABLE>\nC 5 2\n<RECODEABLE>\nV 7 3\n<NUMERIC>\n";

// Records of three variables.
pub(crate) const THIRTEEN_RECORDS: &str =
    "a1b1c1 10\na1b1c2 10\na1b2c1 10\na1b2c1 10\na1b2c2 10\na1b2c2 20\na2b1c1  5\na2b1c1  5\na2b1c2 10\na2b1c2 10\na2b2c1 15\na2b2c2 10\na2b2c2 15\n";

// What is said of words that ask for nothing.
pub(crate) const USAGE: &str =
    "1 usage: argus run JOB | check JOB | intervals JOB OUT | demo SEED RECORDS | migrate OLD NEW | audit JOB OUT\n";

// A job of a two-way table, with an a priori file.
pub(crate) const TWO_WAY: &str =
    "<OPENMICRODATA> \"m.asc\"\n<OPENMETADATA> \"m.rda\"\n<SPECIFYTABLE> \"A\"\"B\"|\"V\"\n<SAFETYRULE> FREQ(3,30)\n<APRIORI> \"p.hst\",1,\",\"\n<SUPPRESS> MOD()\n<WRITETABLE> (1,\"t.csv\")\n<CERTIFICATE> \"t.cert\"\n";

// All margins are always shown.
pub(crate) const MARGINS: &str = "Total,Total,p\nTotal,b1,p\nTotal,b2,p\na1,Total,p\na2,Total,p\n";

// A job of a table by industries, which have two levels, with its metadata and its records of 14 bytes.
pub(crate) const BY_INDUSTRY: &str =
    "<OPENMICRODATA> \"m.asc\"\n<OPENMETADATA> \"m.rda\"\n<SPECIFYTABLE> \"Ind\"|\"Turn\"\n<SAFETYRULE> FREQ(3,30)|P(10)\n<SUPPRESS> MOD()\n<WRITETABLE> (1,\"t.csv\")\n<CERTIFICATE> \"t.cert\"\n";

// Its metadata.
pub(crate) const SURVEY: &str =
    "Ind 1 2 99\n   <RECODEABLE>\n   <HIERARCHICAL>\n   <HIERLEVELS> 1 1 0 0 0\nReg 3 2\n   <RECODEABLE>\n   <TOTCODE> All\nReq 5 1\n   <REQUEST> \"1\" \"2\"\nHold 6 3\n   <HOLDING>\nTurn 9 6 999999 888888\n   <NUMERIC>\n   <DECIMALS> 0\n";

// Its records.
pub(crate) const FIRMS: &str =
    "11Nr0001    10\n11Nr0002    20\n11Os0003    30\n12Nr0004     5\n12Os0005     5\n12Os0006     5\n21Nr0007    40\n21Nr0008     1\n21Os0009     1\n21Os0010999999\n";

// The certificate that it puts.
pub(crate) const FIRMS_CERTIFICATE: &str =
    "argus certificate 2\nmethod MOD\ncells 6\nrelations 3\nhidden 1 3 4 5\nstep 1 0 4 1,4\nstep 1 1 1 1,3\nneed 1 4 above 1 0:1\nneed 3 4 above 1 0:1 1:1\nworld 4 above 1 1:-3 3:-3 4:3 5:3\nworld 4 below 1 1:3 3:3 4:-3 5:-3\nworld 5 above 1 1:-3 3:-3 4:3 5:3\nworld 5 below 1 1:3 3:3 4:-3 5:-3\nend\n";

// The table that it puts.
pub(crate) const FIRMS_TABLE: &str = "Ind,Turn\nTotal,117\n1,x\n11,60\n12,x\n2,x\n21,x\n";

// The certificate of the two-way job, as its run puts it.
pub(crate) const TWO_WAY_CERTIFICATE: &str =
    "argus certificate 2\nmethod MOD\ncells 9\nrelations 6\nhidden 4 5 7 8\nstep 1 0,0 4 4,5,7,8\nneed 5 4 above 1 4:1\nneed 7 4 above 1 2:1\nneed 8 4 above 1 2:1 5:-1\nworld 4 above 1 4:6 5:-6 7:-6 8:6\nworld 4 below 1 4:-6 5:6 7:6 8:-6\nend\n";

// The table of the two-way job.
pub(crate) const TWO_WAY_TABLE: &str =
    "A,B,V\nTotal,Total,140\nTotal,b1,50\nTotal,b2,90\na1,Total,70\na1,b1,x\na1,b2,x\na2,Total,70\na2,b1,x\na2,b2,x\n";

// Metadata of two variables, and the response.
pub(crate) const TWO_VARIABLES: &str =
    "A 1 1\n<RECODEABLE>\nB 2 1\n<RECODEABLE>\nV 3 2\n<NUMERIC>\n";

// Records of two variables.
pub(crate) const FOUR_RECORDS: &str = "11 3\n12 4\n21 6\n22 2\n";

// The certificate that is put then.
pub(crate) const FOUR_CERTIFICATE: &str =
    "argus certificate 2\nmethod RND 5\ncells 9\nrelations 6\nend\n";

// The table that is put then.
pub(crate) const FOUR_TABLE: &str =
    "A,B,V\nTotal,Total,15\nTotal,1,10\nTotal,2,5\n1,Total,10\n1,1,5\n1,2,5\n2,Total,5\n2,1,5\n2,2,0\n";

// Metadata of a variable of three bytes, whose codes are in a hierarchy file, and of the response.
pub(crate) const LISTED: &str =
    "A 1 3\n<RECODEABLE>\n<CODELIST> \"a.cdl\"\n<HIERARCHICAL>\n<HIERCODELIST> \"a.hrc\"\nV 4 3\n<NUMERIC>\n";

// The job of one table with a file for contributors.
pub(crate) const ONE_TABLE_GUARDED: &str =
    "<OPENMICRODATA> \"m.asc\"\n<OPENMETADATA> \"m.rda\"\n<SPECIFYTABLE> \"A\"|\"V\"\n<SAFETYRULE> FREQ(3,30)\n<READMICRODATA>\n<SUPPRESS> MOD()\n<WRITETABLE> (1,\"t.csv\")\n<CONTRIBUTORS> \"t.con\"\n<CERTIFICATE> \"t.cert\"\n";

// What a run of the two-way job says and puts.
pub(crate) const TWO_WAY_RELEASED: &str =
    "0 released: 13 records, 0 skipped, 0 passed over, 9 cells, 1 primary, 4 hidden\nargus certificate 2\nmethod MOD\ncells 9\nrelations 6\nhidden 4 5 7 8\nstep 1 0,0 4 4,5,7,8\nneed 5 4 above 1 4:1\nneed 7 4 above 1 2:1\nneed 8 4 above 1 2:1 5:-1\nworld 4 above 1 4:6 5:-6 7:-6 8:6\nworld 4 below 1 4:-6 5:6 7:6 8:-6\nend\nA,B,V\nTotal,Total,140\nTotal,b1,50\nTotal,b2,90\na1,Total,70\na1,b1,x\na1,b2,x\na2,Total,70\na2,b1,x\na2,b2,x\n";

// What a run of the job by industries says and puts.
pub(crate) const FIRMS_RELEASED: &str =
    "0 released: 9 records, 1 skipped, 2 passed over, 6 cells, 2 primary, 4 hidden\nargus certificate 2\nmethod MOD\ncells 6\nrelations 3\nhidden 1 3 4 5\nstep 1 0 4 1,4\nstep 1 1 1 1,3\nneed 1 4 above 1 0:1\nneed 3 4 above 1 0:1 1:1\nworld 4 above 1 1:-3 3:-3 4:3 5:3\nworld 4 below 1 1:3 3:3 4:-3 5:-3\nworld 5 above 1 1:-3 3:-3 4:3 5:3\nworld 5 below 1 1:3 3:3 4:-3 5:-3\nend\nInd,Turn\nTotal,117\n1,x\n11,60\n12,x\n2,x\n21,x\n";

// A job of a two-way table that is rounded to multiples of 5.
pub(crate) const FOUR_ROUNDED: &str =
    "<OPENMICRODATA> \"m.asc\"\n<OPENMETADATA> \"m.rda\"\n<SPECIFYTABLE> \"A\"\"B\"|\"V\"\n<SAFETYRULE> FREQ(3,30)\n<WRITETABLE> (1,\"t.csv\")\n<CERTIFICATE> \"t.cert\"\n<SUPPRESS> RND(5)\n";

// What a run of it over the four records says and puts.
pub(crate) const FOUR_RELEASED: &str =
    "0 released: 4 records, 0 skipped, 0 passed over, 9 cells, 8 primary, 0 hidden\nargus certificate 2\nmethod RND 5\ncells 9\nrelations 6\nend\nA,B,V\nTotal,Total,15\nTotal,1,10\nTotal,2,5\n1,Total,10\n1,1,5\n1,2,5\n2,Total,5\n2,1,5\n2,2,0\n";

// What is said and put where the certificate of the job by industries is put in the second version.
pub(crate) const MIGRATED: &str =
    "0 migrated\nargus certificate 2\nmethod MOD\ncells 6\nrelations 3\nhidden 1 3 4 5\nstep 1 0 4 1,4\nstep 1 1 1 1,3\nneed 1 4 above 1 0:1\nneed 3 4 above 1 0:1 1:1\nworld 4 above 1 1:-3 3:-3 4:3 5:3\nworld 4 below 1 1:3 3:3 4:-3 5:-3\nworld 5 above 1 1:-3 3:-3 4:3 5:3\nworld 5 below 1 1:3 3:3 4:-3 5:-3\nend\n";
