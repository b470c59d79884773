//! What a protection comes to, in lines, for tests.

use interval_audit::AskFault;
use repair::{Stopped, Verdict};
use std::alloc::Global;
use std::test::Fail;
use worlds::{Multipliers, Refuted, World};

fn add_multipliers(
    alloc: Global,
    text: &mut String,
    multipliers: &Multipliers,
) -> Result<(), Fail> {
    let den = multipliers.den;
    text.push_str(&format!(in alloc; " {den}")?)?;
    for (relation, by) in multipliers.by_relation.as_slice() {
        let number = *relation;
        let times = *by;
        text.push_str(&format!(in alloc; " {number}:{times}")?)?;
    }
    text.push_str("\n")?;
    Ok(())
}

fn add_refuted(alloc: Global, text: &mut String, word: &str, all: &[Refuted]) -> Result<(), Fail> {
    for one in all {
        let subject = one.subject;
        let cell = one.cell;
        let side = one.side.word();
        text.push_str(&format!(in alloc; "{word} {subject} {cell} {side}")?)?;
        add_multipliers(alloc, text, &one.multipliers)?;
    }
    Ok(())
}

fn add_world(alloc: Global, text: &mut String, world: &World) -> Result<(), Fail> {
    let den = world.den;
    text.push_str(&format!(in alloc; "world {den}")?)?;
    for one in world.moves.as_slice() {
        let cell = one.cell;
        let by = one.by;
        text.push_str(&format!(in alloc; " {cell}:{by}")?)?;
    }
    text.push_str("\n")?;
    Ok(())
}

fn add_cells(alloc: Global, text: &mut String, word: &str, cells: &[u32]) -> Result<(), Fail> {
    text.push_str(word)?;
    for cell in cells {
        let number = *cell;
        text.push_str(&format!(in alloc; " {number}")?)?;
    }
    text.push_str("\n")?;
    Ok(())
}

// The numbers of the hidden cells.
fn hidden_cells(alloc: Global, flags: &[bool]) -> Result<Vec<u32>, Fail> {
    let mut cells = Vec::new(alloc);
    let mut number = 0u32;
    for hidden in flags {
        if *hidden {
            cells.push(number)?;
        }
        number = number.saturating_add(1);
    }
    Ok(cells)
}

// A verdict in lines: what is hidden, the repairs, the needs and the worlds; or what can't be protected.
pub(crate) fn verdict_lines(alloc: Global, verdict: &Verdict<'_>) -> Result<String, Fail> {
    let mut text = String::new(alloc);
    match verdict {
        Verdict::Protected {
            protected,
            repairs,
            needs,
        } => {
            let cells = hidden_cells(alloc, protected.hidden().flags.as_slice())?;
            add_cells(alloc, &mut text, "hidden", &cells)?;
            add_refuted(alloc, &mut text, "repair", repairs.as_slice())?;
            add_refuted(alloc, &mut text, "need", needs.as_slice())?;
            for world in protected.worlds() {
                add_world(alloc, &mut text, world)?;
            }
        }
        Verdict::Cannot {
            cell,
            side,
            multipliers,
        } => {
            let number = *cell;
            let word = side.word();
            text.push_str(&format!(in alloc; "cannot {number} {word}")?)?;
            add_multipliers(alloc, &mut text, multipliers)?;
        }
    }
    Ok(text)
}

// Why a protection stopped, in lines: the fault, the repairs, and the cells that were shown.
pub(crate) fn stop_lines(alloc: Global, stopped: &Stopped) -> Result<String, Fail> {
    let mut text = String::new(alloc);
    match &stopped.fault {
        AskFault::Work(walk) => {
            let cell = walk.question.cell;
            let side = walk.question.side.word();
            let steps = walk.tableau.improved();
            text.push_str(&format!(in alloc; "work {cell} {side} {steps}\n")?)?;
        }
        AskFault::Wide(..) => text.push_str("wide\n")?,
        AskFault::Size { question, hidden } => {
            let cell = question.cell;
            let side = question.side.word();
            let count = *hidden;
            text.push_str(&format!(in alloc; "size {cell} {side} {count}\n")?)?;
        }
        AskFault::Memory => text.push_str("memory\n")?,
    }
    add_refuted(alloc, &mut text, "repair", stopped.repairs.as_slice())?;
    add_cells(alloc, &mut text, "shown", stopped.shown.as_slice())?;
    Ok(text)
}
