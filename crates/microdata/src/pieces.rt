ghost use Rattle.std.specs.Prelude.{◌≡◌, flat_map};
ghost use Rattle.sdc_base.specs.Answers.{Gives};
ghost use Rattle.microdata.specs.Faults.{row_fault_of};
ghost use Rattle.microdata.specs.Layouts.{IsLayout};
ghost use Rattle.microdata.specs.Microdata.{records_of};

use crate::faults::RowError;
use crate::layout::Layout;
use crate::reader::Reader;
use crate::records::Records;
use sdc_base::Text;
use std::alloc::Global;

/// The records of the bytes that these pieces make up, or their first fault: how the bytes are cut changes nothing.
///
/// A fault that a piece brings is kept by the reader, and given at the end. The layout is as in `Reader::new`, and so
/// are the refusals, the cost and the source of the rules.
pub fn read_pieces(alloc: Global, layout: Layout, pieces: &[Text]) -> Result<Records, RowError>
    requires { IsLayout layout }
    ensures { Gives row_fault_of (λ records. records) result
        (records_of layout (flat_map (λ piece. piece) pieces.now)) }
{
    let mut reader = Reader::new(alloc, layout)?;
    'pieces: for piece in pieces {
        let _ = reader.feed(piece.as_slice());
    }
    reader.finish()
}
