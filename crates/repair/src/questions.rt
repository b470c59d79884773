ghost use Rattle.std.specs.Prelude.{◌≡◌, ◌∷◌, ◌++◌, [], ◌<◌, ◌^◌, length, IfOk, OnOk};
ghost use Rattle.worlds.specs.ProtectFaults.{asked_of};

use sdc_base::{Cell, Memory, Side};
use std::alloc::Global;

/// What is asked in a protection, in its order: each primary cell, above and then below.
///
/// There are fewer than `2^32` cells, numbered from 0. Its one refusal is want of memory. Levels are the
/// handbook's (protection levels), the order is argus's own.
pub fn questions_of(alloc: Global, cells: &[Cell]) -> Result<Vec<(u32, Side)>, Memory>
    requires { length cells.now < 2 ^ 32 }
    ensures { IfOk result (λ questions. questions.items ≡ asked_of 0 cells.now) }
{
    let mut questions = Vec::new(alloc);
    for (number, cell) in cells.iter().enumerate() {
        add_questions(&mut questions, number as u32, cell)?;
    }
    Ok(questions)
}

// Adds what is asked of one cell.
fn add_questions(questions: &mut Vec<(u32, Side)>, number: u32, cell: &Cell) -> Result<(), Memory>
    ensures { OnOk result (questions.new.items ≡ questions.old.items ++ asked_of number (cell.now ∷ [])) }
{
    if cell.kind.is_primary() {
        questions.push((number, Side::Above))?;
        questions.push((number, Side::Below))?;
    }
    Ok(())
}
