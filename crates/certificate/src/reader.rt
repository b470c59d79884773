ghost use Rattle.std.specs.Prelude.{◌≡◌, ◌+◌, IfOk};
ghost use Rattle.sdc_base.specs.Answers.{Gives};
ghost use Rattle.certificate.specs.Faults.{at_line, cert_fault_of};
ghost use Rattle.certificate.specs.Pieces.{pieces, line_feed};
ghost use Rattle.certificate.specs.Certificates as certificates;
ghost use Rattle.certificate.specs.ExtraReadings.{heading_at, begins_with_line};

use crate::faults::{CertError, CertWhy};
use crate::tokens::is_word;
use crate::version::Version;
use plain_text::cut_at;
use std::marker::Model;

/// A line of a certificate.
#[derive(Clone, Copy)]
pub(crate) struct Line<'a> {
    /// Its number, from 1.
    pub number: u64,
    /// Its bytes, without the LF that ends it.
    pub text: &'a [u8],
}

/// A reader that gives the lines of a certificate, one after another.
#[derive(Drop)]
pub(crate) struct Reader<'a> {
    rest: &'a [u8],
    given: u64,
}

impl<'a> Model for Reader<'a> {
    ghost use Rattle.std.specs.Prelude.{length, ◌+◌, ◌<◌, ◌^◌};
    ghost use Rattle.certificate.specs.Remainder.{Remainder};
    ghost use Rattle.certificate.specs.Pieces.{pieces, line_feed};

    ghost Value = { Remainder };

    ghost view = { λ s. record { given = s.given; lines = pieces line_feed s.rest.now } };

    ghost invariant = { λ s. s.given + 1 + length s.rest.now < 2 ^ 64 };
}

// A reader before the first line.
fn reader_of<'a>(bytes: &'a [u8]) -> Reader<'a>
    ensures { result ≡ record { given = 0; lines = pieces line_feed bytes.now } }
{
    Reader {
        rest: bytes,
        given: 0,
    }
}

/// The version of the first line, and a reader behind that line.
#[tactic(auto, unfolding(crate::specs::Certificates::version_at))]
pub(crate) fn behind_version<'a>(bytes: &'a [u8]) -> Result<(Version, Reader<'a>), CertError>
    ensures { Gives cert_fault_of (λ start. start) result (certificates.version_at (pieces line_feed bytes.now)) }
{
    let version = first_version(bytes)?;
    let mut reader = reader_of(bytes);
    reader.next_line()?;
    Ok((version, reader))
}

// The version with whose first line the bytes begin.
#[tactic(auto, using(crate::proofs::LineSteps::version_by_head))]
fn first_version(bytes: &[u8]) -> Result<Version, CertError>
    ensures { Gives cert_fault_of (λ version. version) result
        (at_line 1 (certificates.first_version (pieces line_feed bytes.now))) }
{
    if bytes.is_empty() {
        return Err(CertError::At {
            line: 1,
            why: CertWhy::NoEnd,
        });
    }
    let (line, _) = cut_at(b'\n', bytes);
    if is_word(line, b"argus certificate 1") {
        return Ok(Version::One);
    }
    if is_word(line, b"argus certificate 2") {
        return Ok(Version::Two);
    }
    Err(CertError::At {
        line: 1,
        why: CertWhy::Version,
    })
}

/// A reader behind the first line, which must be this one.
#[tactic(auto, unfolding(crate::specs::ExtraReadings::heading_at))]
pub(crate) fn behind_heading<'a>(heading: &[u8], bytes: &'a [u8]) -> Result<Reader<'a>, CertError>
    ensures { Gives cert_fault_of (λ reader. reader) result (heading_at heading.now (pieces line_feed bytes.now)) }
{
    let mut reader = reader_of(bytes);
    if bytes.is_empty() {
        return Err(CertError::At {
            line: 1,
            why: CertWhy::NoEnd,
        });
    }
    if !has_heading(heading, bytes) {
        return Err(CertError::At {
            line: 1,
            why: CertWhy::Version,
        });
    }
    reader.next_line()?;
    Ok(reader)
}

// Whether the bytes begin with this line.
fn has_heading(heading: &[u8], bytes: &[u8]) -> bool
    ensures { result ≡ begins_with_line heading.now (pieces line_feed bytes.now) }
{
    let (line, _) = cut_at(b'\n', bytes);
    is_word(line, heading)
}

impl<'a> Reader<'a> {
    // What is wrong with the next line, with its number.
    fn fault(&self, why: CertWhy) -> CertError
        ensures { result ≡ CertError.At (self.now.given + 1) why }
    {
        CertError::At {
            line: self.given + 1,
            why,
        }
    }

    /// The next line, which LF must end.
    #[tactic(auto, using(crate::proofs::LineSteps::line_open, crate::proofs::LineSteps::line_first))]
    pub(crate) fn next_line(&mut self) -> Result<Line<'a>, CertError>
        ensures exact { Gives cert_fault_of (λ line. (line.text.now, self.new)) result
            (certificates.next_line self.old.given self.old.lines) }
        ensures number { IfOk result (λ line. line.number ≡ self.old.given + 1) }
    {
        let bytes = self.rest;
        if bytes.is_empty() {
            return Err(self.fault(CertWhy::NoEnd));
        }
        if !bytes.contains(&b'\n') {
            return Err(self.fault(CertWhy::Shape));
        }
        let (text, rest) = cut_at(b'\n', bytes);
        self.rest = rest;
        self.given += 1;
        Ok(Line {
            number: self.given,
            text,
        })
    }

    /// Whether the first word of the next line is this one.
    #[tactic(auto, using(crate::proofs::LineSteps::next_by_head))]
    pub(crate) fn is_next(&self, word: &[u8]) -> bool
        ensures { result ≡ certificates.is_next word.now self.now.lines }
    {
        let (line, _) = cut_at(b'\n', self.rest);
        let (first, _) = cut_at(b' ', line);
        is_word(first, word)
    }

    /// There must be no line left, and no byte.
    #[tactic(auto, using(crate::proofs::LineSteps::over_more))]
    pub(crate) fn end(&self) -> Result<(), CertError>
        ensures { Gives cert_fault_of (λ fine. fine) result (certificates.end_at self.now.given self.now.lines) }
    {
        if !self.rest.is_empty() {
            return Err(self.fault(CertWhy::Shape));
        }
        Ok(())
    }
}
