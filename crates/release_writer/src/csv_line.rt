ghost use Rattle.std.specs.Prelude.{◌≡◌, ◌<◌, ◌+◌, ◌-◌, ◌^◌, ◌++◌, ◌∷◌, [], length, true, OnOk};
ghost use Rattle.csv.specs.Writing.{default_writer, writer_setup, fields_written, has_written, next_sep};
ghost use Rattle.csv.specs.Writing as spec;
ghost use Rattle.release_writer.specs.Lines.{IsReadyWriter, AppendsText};

use csv::Writer;
use sdc_base::Memory;

/// Writes one more field of a line.
pub(crate) fn put_field(writer: &mut Writer<Vec<u8>>, field: &[u8]) -> Result<(), Memory>
    requires setup { writer_setup writer.old ≡ default_writer }
    requires fewer_than_2_64 { fields_written writer.old < 2 ^ 64 - 1 }
    ensures setup { OnOk result (writer_setup writer.new ≡ default_writer) }
    ensures fields { OnOk result (fields_written writer.new ≡ fields_written writer.old + 1) }
    ensures text { OnOk result (AppendsText writer.old writer.new
        (next_sep default_writer (fields_written writer.old) ++ spec.field_text default_writer field.now)) }
    ensures shown { 0 < length field.now → OnOk result (has_written writer.new ≡ true) }
{
    writer.write_field(field).map_err(|_| Memory)
}

/// Ends a line that has shown something.
pub(crate) fn end_line(writer: &mut Writer<Vec<u8>>) -> Result<(), Memory>
    requires setup { writer_setup writer.old ≡ default_writer }
    requires at_least_one_field { 0 < fields_written writer.old }
    requires shown { fields_written writer.old ≡ 1 → has_written writer.old ≡ true }
    ensures ready { OnOk result (IsReadyWriter writer.new) }
    ensures text { OnOk result (AppendsText writer.old writer.new (10 ∷ [])) }
{
    writer.end_record().map_err(|_| Memory)
}
