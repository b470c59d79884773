ghost use Rattle.std.specs.Prelude.{◌≡◌, ◌<◌, ◌+◌, ◌-◌, ◌^◌, ◌++◌, ◌∷◌, [], length, true, Some, IfOk, OnOk};
ghost use Rattle.csv.specs.Writing.{default_writer, writer_setup, fields_written, next_sep};
ghost use Rattle.csv.specs.Writing as spec;
ghost use Rattle.sdc_base.specs.TableText.{line_text};
ghost use Rattle.release_writer.specs.Lines.{IsReadyWriter, AppendsText, bytes_written};

use csv::{Writer, WriterBuilder};
use sdc_base::{Memory, Text};
use std::alloc::Global;

/// A csv writer that has written nothing.
pub(crate) fn empty_writer(alloc: Global) -> Writer<Vec<u8>>
    ensures ready { IsReadyWriter result }
    ensures text { bytes_written result ≡ Some [] }
{
    WriterBuilder::new().from_writer(Vec::new(alloc))
}

/// Writes a line of fields, of which there are two or more.
pub(crate) fn write_line(writer: &mut Writer<Vec<u8>>, fields: &[Text]) -> Result<(), Memory>
    requires ready { IsReadyWriter writer.old }
    requires at_least_two { 1 < length fields.now }
    ensures ready { OnOk result (IsReadyWriter writer.new) }
    ensures text { OnOk result (AppendsText writer.old writer.new (line_text fields.now)) }
{
    'fields: for field in fields {
        put_field(writer, field.as_slice())?;
    }
    end_line(writer)
}

/// The bytes that a writer has written.
pub(crate) fn bytes_of(writer: Writer<Vec<u8>>) -> Result<Vec<u8>, Memory>
    ensures text { IfOk result (λ bytes. Some bytes.items ≡ bytes_written writer) }
{
    writer.into_inner().map_err(|_| Memory)
}

// Writes one more field of a line.
fn put_field(writer: &mut Writer<Vec<u8>>, field: &[u8]) -> Result<(), Memory>
    requires setup { writer_setup writer.old ≡ default_writer }
    requires fewer_than_2_64 { fields_written writer.old < 2 ^ 64 - 1 }
    ensures setup { OnOk result (writer_setup writer.new ≡ default_writer) }
    ensures fields { OnOk result (fields_written writer.new ≡ fields_written writer.old + 1) }
    ensures text { OnOk result (AppendsText writer.old writer.new
        (next_sep default_writer (fields_written writer.old) ++ spec.field_text default_writer field.now)) }
{
    writer.write_field(field).map_err(|_| Memory)
}

// Ends a line of two fields or more.
fn end_line(writer: &mut Writer<Vec<u8>>) -> Result<(), Memory>
    requires setup { writer_setup writer.old ≡ default_writer }
    requires at_least_two { 1 < fields_written writer.old }
    ensures ready { OnOk result (IsReadyWriter writer.new) }
    ensures text { OnOk result (AppendsText writer.old writer.new (10 ∷ [])) }
{
    writer.end_record().map_err(|_| Memory)
}
