ghost use Rattle.std.specs.Option.{ForSome};
ghost use Rattle.std.specs.List.{AllByRecursion, IsDistinct};
ghost use Rattle.sdc_base.specs.Trees.{IsCodeTree};
ghost use Rattle.std.specs.Str.{bytes_eq};
ghost use Rattle.sdc_base.specs.Lines.{HasNoFeed};
ghost use Rattle.microdata.specs.Keeping.{AreSoundRecords};
ghost use Rattle.microdata.specs.SeenCodes.{seen_first};
ghost use Rattle.microdata.specs.Layouts.{IsSource, IsField};
ghost use Rattle.std.specs.Prelude.{◌≡◌, ◌+◌, ◌++◌, ℕ, List, [], All, map, None, Some, Ok, Err, IfOk, IfErr, OnOk};
ghost use Rattle.sdc_base.specs.Answers.{Gives};
ghost use Rattle.microdata.specs.Faults.{row_fault_of};
ghost use Rattle.microdata.specs.Layouts.{IsLayout};
ghost use Rattle.microdata.specs.Microdata.{records_of, records_behind};
ghost use Rattle.microdata.specs.Feeding.{HasRead, fed_of, answered_error};
ghost use Rattle.microdata.specs.declared.layout.Layout.{Layout as AnyLayout};

use crate::closing::close;
use crate::codes::Codes;
use crate::faults::RowError;
use crate::feeding::take_bytes;
use crate::kept_rows::KeptRows;
use crate::layout::{Field, Layout, Measures, Source};
use crate::record::{ReaderProgress, Variable, Variables, take_line};
use crate::records::Records;
use crate::taking::Seen;
use code_trees::CodeSet;
use sdc_base::{Items, Memory, Text};
use std::alloc::Global;
use std::marker::Model;

/// A reader of microdata that come in pieces, each of any length: how the bytes are cut changes nothing. It keeps the
/// rows and codes of the records so far and the line that has begun, at most 1,001 bytes of it, and not the bytes.
/// That it was fed these bytes, in whatever pieces, is what `HasRead` says in its contracts.
#[derive(Drop)]
pub struct Reader {
    alloc: Global,
    measures: Measures,
    so_far: ReaderProgress,
    begun: Vec<u8>,
    error: Option<RowError>,
}

impl Model for Reader {
    ghost use Rattle.microdata.specs.Feeding.{ReaderView};
    ghost use Rattle.microdata.specs.Keeping.{IsReadyReader};

    ghost Value = { ReaderView };

    ghost view = { λ s. record { measures = s.measures; so_far = s.so_far; begun = s.begun.items; error = s.error } };

    ghost invariant = { λ s. IsReadyReader s.error s.measures s.so_far s.begun.items };
}

impl Reader {
    /// A reader of records with this layout, before the first byte. It keeps the allocator for what it reads.
    ///
    /// The caller sees to it that the layout is one that records can be read by: at most eight spanning fields; first
    /// positions and widths from 1, and no last position beyond `needed`, which is at most 1,000; at most 9 decimals of
    /// the response and 4 of the weight; 1 to 9 widths above 0 where there are levels; and listed codes that are
    /// distinct, at most 5,000, and none of them the total. The only refusal is want of memory. It copies the listed
    /// codes.
    pub fn new(alloc: Global, layout: Layout) -> Result<Reader, Memory>
        requires { IsLayout layout }
        ensures fed { IfOk result (λ reader. HasRead reader layout []) }
        ensures none { IfOk result (λ reader. answered_error reader ≡ None) }
    {
        let variables = variables_of(alloc, layout.spanning)?;
        Ok(Reader {
            alloc,
            measures: Measures {
                response: layout.response,
                weight: layout.weight,
                needed: layout.needed,
            },
            so_far: ReaderProgress {
                variables: Variables::new(variables),
                rows: KeptRows::empty(alloc),
                number: 0,
                skipped: 0,
            },
            begun: Vec::new(alloc),
            error: None,
        })
    }

    /// Takes in the next piece of the bytes.
    ///
    /// It answers `At` exactly where, of all bytes so far, a line that has ended has a fault, or the line that has
    /// begun has more than 1,000 bytes, one CR at its end not counted; the first fault is given, with the number of its
    /// record, from 1. That a code has others below it is looked for in `finish` alone. `Memory` is want of memory.
    /// After an error the same error is answered from then on, here and by `finish`.
    ///
    /// It looks at each byte a few times, and for each record takes one look-up for each spanning variable, and a few
    /// more where a code is new. The form of the records is tau-ARGUS's, limits and the order of faults argus's own.
    pub fn feed(&mut self, piece: &[u8]) -> Result<(), RowError>
        ensures fed { (layout : AnyLayout) (bytes : List ℕ) → HasRead self.old layout bytes
            → HasRead self.new layout (bytes ++ piece.now) }
        ensures exact { (layout : AnyLayout) (bytes : List ℕ) → HasRead self.old layout bytes
            → Gives row_fault_of (λ fine. fine) result (fed_of layout (bytes ++ piece.now)) }
        ensures again { ForSome (answered_error self.old) (λ error. result ≡ Err error) }
        ensures kept { IfErr result (λ error. answered_error self.new ≡ Some error) }
        ensures going { IfOk result (λ _. answered_error self.new ≡ None) }
    {
        if let Some(error) = self.error {
            return Err(error);
        }
        match take_bytes(
            self.alloc,
            &self.measures,
            &mut self.so_far,
            &mut self.begun,
            piece,
        ) {
            Ok(()) => Ok(()),
            Err(error) => {
                self.error = Some(error);
                Err(error)
            }
        }
    }

    /// The records of all bytes, with the trees of the spanning variables, or their first fault: behind what `feed`
    /// looks for, the fault of the last line, which may have no end, and then the first record with a code that has
    /// others below it. An error that was answered before is answered again.
    ///
    /// It takes a pass over the records, and a few look-ups for each distinct code.
    pub fn finish(self) -> Result<Records, RowError>
        ensures exact { (layout : AnyLayout) (bytes : List ℕ) → HasRead self layout bytes
            → Gives row_fault_of (λ records. records) result (records_of layout bytes) }
        ensures again { ForSome (answered_error self) (λ error. result ≡ Err error) }
        ensures trees { IfOk result (λ records. AllByRecursion IsCodeTree records.trees) }
    {
        let Reader {
            alloc,
            measures,
            so_far,
            begun,
            error,
        } = self;
        if let Some(error) = error {
            return Err(error);
        }
        read_out(alloc, &measures, so_far, &begun)
    }
}

// The records behind the last line, which has no end.
#[tactic(auto, unfolding(crate::specs::Microdata::records_behind))]
fn read_out(
    alloc: Global,
    measures: &Measures,
    so_far: ReaderProgress,
    last: &[u8],
) -> Result<Records, RowError>
    requires sound { AreSoundRecords measures.now so_far }
    requires plain { HasNoFeed last.now }
    ensures exact { Gives row_fault_of (λ records. records) result (records_behind measures.now so_far last.now) }
    ensures trees { IfOk result (λ records. AllByRecursion IsCodeTree records.trees) }
{
    let mut so_far = so_far;
    take_line(alloc, measures, &mut so_far, last)?;
    close(alloc, so_far)
}

// The variables before the first record.
fn variables_of(alloc: Global, spanning: Items<Field>) -> Result<Vec<Variable>, Memory>
    requires { All (λ field. IsSource field.source) spanning }
    ensures { IfOk result (λ variables. variables.items
        ≡ map (λ field. record { field = field; seen = seen_first field.source }) spanning) }
{
    let mut variables = Vec::new(alloc);
    'fields: for field in spanning.into_vec() {
        variables.push(variable_of(alloc, field)?)?;
    }
    Ok(variables)
}

// A variable before the first record.
fn variable_of(alloc: Global, field: Field) -> Result<Variable, Memory>
    requires { IsSource field.source }
    ensures { IfOk result (λ variable. variable ≡ record { field = field; seen = seen_first field.source }) }
{
    let mut codes = Codes::new(alloc);
    if let Source::Flat {
        codes: listed,
        total: _,
    } = &field.source
    {
        add_all(alloc, &mut codes, listed.as_slice())?;
    }
    Ok(Variable {
        field,
        seen: Seen {
            codes,
            nodes: CodeSet::new(alloc),
        },
    })
}

// Adds the codes of a list.
fn add_all(alloc: Global, codes: &mut Codes, listed: &[Text]) -> Result<(), Memory>
    requires empty { codes.old ≡ [] }
    requires distinct { IsDistinct bytes_eq listed.now }
    ensures { OnOk result (codes.new ≡ listed.now) }
{
    'listed: for code in listed {
        codes.push(alloc, code.as_slice())?;
    }
    Ok(())
}
