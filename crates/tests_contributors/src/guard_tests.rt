ghost use Rattle.std.specs.Prelude.{◌≡◌, ◌≤◌, true, length, All, Option};
ghost use Rattle.cost_rule.specs.Costs.{AreCosted, IsTold};
ghost use Rattle.repair.specs.KeptWorlds.{HasModestLevels};
ghost use Rattle.worlds.specs.WorldFaults.{IsGivenWorld};

use attackers::{Extra, ExtraFault, ExtraNeed, Guarded, accept_extra, guard};
use certificate::WorldLine;
use cost_rule::{CostKind, CostRule, TellsCosts};
use fixture_cells::{cell_of, hidden_of, system_of};
use interval_audit::AskFault;
use linked_tables::Mark;
use sdc_base::{Cell, CellFacts, Hidden, Items, Kind, Side, System, Tops};
use std::alloc::Global;
use std::rt::HostRuntime;
use std::test::Fail;
use worlds::{Move, Multipliers, Protected, World, check_world};

// A cell of a job: its truth, its kind, the level to both sides of a primary one, how many records it has, and the row
// that alone makes it up.
type Row = (u32, Kind, u8, u32, Option<u32>);

// Codes a, b, c, d below a total: a and b of one record each, and the others free.
const LONE_CODES: [Row; 5] = [
    (150, Kind::Free, 0, 9, None),
    (40, Kind::Primary, 12, 1, Some(0)),
    (30, Kind::Primary, 9, 1, Some(1)),
    (30, Kind::Free, 0, 3, None),
    (50, Kind::Free, 0, 4, None),
];

// The same, where all others are shown.
const LONE_CODES_ALONE: [Row; 5] = [
    (150, Kind::Fixed, 0, 9, None),
    (40, Kind::Primary, 12, 1, Some(0)),
    (30, Kind::Primary, 9, 1, Some(1)),
    (30, Kind::Fixed, 0, 3, None),
    (50, Kind::Fixed, 0, 4, None),
];

// The total and its four parts.
const FLAT: [(u32, &[u32]); 1] = [(0, &[1, 2, 3, 4])];

// Whether no level is above 2^110.
fn is_modest(cell: &Cell) -> bool
    ensures { result ≡ true → HasModestLevels cell.now }
{
    cell.up <= 1 << 110 && cell.down <= 1 << 110
}

fn is_costed(mark: &Mark) -> bool
    ensures { result ≡ true → AreCosted mark.now.facts }
{
    mark.facts.truth >= 0 && mark.facts.freq <= 1000000
}

fn cells_of(alloc: Global, rows: &[Row]) -> Result<Vec<Cell>, Fail> {
    let mut cells = Vec::new(alloc);
    for (truth, kind, level, _, _) in rows {
        cells.push(cell_of(*truth, *kind, *level))?;
    }
    Ok(cells)
}

fn marks_of(alloc: Global, rows: &[Row]) -> Result<Vec<Mark>, Fail> {
    let mut marks = Vec::new(alloc);
    for (truth, _, _, freq, _) in rows {
        marks.push(Mark {
            facts: CellFacts {
                truth: i128::from(*truth),
                freq: *freq,
                tops: Tops::new(2, 1),
            },
            hidden: false,
        })?;
    }
    Ok(marks)
}

fn soles_of(alloc: Global, rows: &[Row]) -> Result<Vec<Option<u32>>, Fail> {
    let mut soles = Vec::new(alloc);
    for (_, _, _, _, sole) in rows {
        soles.push(*sole)?;
    }
    Ok(soles)
}

// A world in which the two primary codes move.
fn swap(alloc: Global, one: i128, other: i128) -> Result<World, Fail> {
    let mut moves = Vec::new(alloc);
    moves.push(Move { cell: 1, by: one })?;
    moves.push(Move { cell: 2, by: other })?;
    Ok(World {
        den: 1,
        moves: Items::new(moves),
    })
}

// The worlds by which the two primary codes protect each other.
fn worlds_of(alloc: Global) -> Result<Vec<World>, Fail> {
    let mut worlds = Vec::new(alloc);
    worlds.push(swap(alloc, 12, -12)?)?;
    worlds.push(swap(alloc, -12, 12)?)?;
    worlds.push(swap(alloc, -9, 9)?)?;
    worlds.push(swap(alloc, 9, -9)?)?;
    Ok(worlds)
}

fn add_multipliers(
    alloc: Global,
    text: &mut String,
    multipliers: &Multipliers,
) -> Result<(), Fail> {
    let den = multipliers.den;
    text.push_str(&format!(in alloc; " {den}")?)?;
    for (relation, by) in multipliers.by_relation.as_slice() {
        let number = *relation;
        let times = *by;
        text.push_str(&format!(in alloc; " {number}:{times}")?)?;
    }
    text.push_str("\n")?;
    Ok(())
}

fn side_name(side: Side) -> &'static str {
    match side {
        Side::Above => "above",
        Side::Below => "below",
    }
}

fn add_cells(alloc: Global, text: &mut String, cells: &[u32]) -> Result<(), Fail> {
    text.push_str("extra")?;
    for cell in cells {
        let number = *cell;
        text.push_str(&format!(in alloc; " {number}")?)?;
    }
    text.push_str("\n")?;
    Ok(())
}

fn add_needs(alloc: Global, text: &mut String, needs: &[ExtraNeed]) -> Result<(), Fail> {
    for need in needs {
        let subject = need.subject;
        let row = need.row;
        let cell = need.cell;
        let side = side_name(need.side);
        text.push_str(&format!(in alloc; "need {subject} {row} {cell} {side}")?)?;
        add_multipliers(alloc, text, &need.multipliers)?;
    }
    Ok(())
}

fn add_guard(alloc: Global, text: &mut String, line: &WorldLine) -> Result<(), Fail> {
    let cell = line.cell;
    let side = side_name(line.side);
    let den = line.world.den;
    text.push_str(&format!(in alloc; "guard {cell} {side} {den}")?)?;
    for one in line.world.moves.as_slice() {
        let moved = one.cell;
        let by = one.by;
        text.push_str(&format!(in alloc; " {moved}:{by}")?)?;
    }
    text.push_str("\n")?;
    Ok(())
}

// The lines of an extra, as the contributors' file has them.
fn extra_lines(alloc: Global, extra: &Extra) -> Result<String, Fail> {
    let mut text = String::new(alloc);
    add_cells(alloc, &mut text, extra.cells.as_slice())?;
    add_needs(alloc, &mut text, extra.needs.as_slice())?;
    for line in extra.guards.as_slice() {
        add_guard(alloc, &mut text, line)?;
    }
    Ok(text)
}

// The lines of what guarding comes to.
fn guarded_lines(alloc: Global, guarded: &Guarded) -> Result<String, Fail> {
    match guarded {
        Guarded::Guards(extra) => extra_lines(alloc, extra),
        Guarded::CannotAgainst {
            row,
            cell,
            side,
            multipliers,
        } => {
            let mut text = String::new(alloc);
            let one = *row;
            let number = *cell;
            let name = side_name(*side);
            text.push_str(&format!(in alloc; "cannot {number} {name} from {one}:")?)?;
            add_multipliers(alloc, &mut text, multipliers)?;
            Ok(text)
        }
    }
}

// A total and its parts: the system, the cells, the rows that alone make them up, and which are hidden.
#[derive(Drop)]
struct Trial {
    system: System,
    cells: Vec<Cell>,
    soles: Vec<Option<u32>>,
    hidden: Hidden,
}

// The trial of these codes, the two primary ones hidden; none where it has no system.
fn trial_of(alloc: Global, rows: &[Row]) -> Result<Option<Trial>, Fail> {
    let Some(system) = system_of(alloc, rows.len(), &FLAT)? else {
        return Ok(None);
    };
    let cells = cells_of(alloc, rows)?;
    let soles = soles_of(alloc, rows)?;
    let hidden = hidden_of(alloc, rows.len(), &[1, 2])?;
    Ok(Some(Trial {
        system,
        cells,
        soles,
        hidden,
    }))
}

// What guarding the two primary codes comes to, none where something lacks.
fn guard_by<F: TellsCosts + Drop>(
    alloc: Global,
    f: F,
    rows: &[Row],
    limit: u64,
) -> Result<Option<Guarded>, Fail>
    requires { IsTold F.may_ask F.may_say f CostKind.Value }
{
    let rule = CostRule::new(CostKind::Value, f);
    let marks = marks_of(alloc, rows)?;
    let worlds = Items::new(worlds_of(alloc)?);
    let mut scratch = vec![in alloc; 0; rows.len()]?;
    let Some(trial) = trial_of(alloc, rows)? else {
        return Ok(None);
    };
    let Trial {
        system,
        cells,
        soles,
        hidden,
    } = trial;
    let size = system.cells as usize;
    if cells.len() != size || marks.len() != size || limit == 0 {
        return Ok(None);
    }
    if hidden.flags.as_slice().len() != size || scratch.len() != size {
        return Ok(None);
    }
    if !marks.iter().all(is_costed) || !cells.iter().all(is_modest) {
        return Ok(None);
    }
    let Ok(protected) = Protected::new(&system, &cells, hidden, worlds, &mut scratch) else {
        return Ok(None);
    };
    match guard(
        alloc, &system, &cells, &marks, &rule, &soles, &protected, limit,
    ) {
        Ok(guarded) => Ok(Some(guarded)),
        Err(_) => Ok(None),
    }
}

fn guarded(alloc: Global, rows: &[Row]) -> Result<Option<Guarded>, Fail> {
    let kind = CostKind::Value;
    guard_by(alloc, |facts: &CellFacts| kind.cost(facts), rows, 1000)
}

// The lines of what guarding comes to.
fn lines_guarding(alloc: Global, rows: &[Row]) -> Result<Option<String>, Fail> {
    match guarded(alloc, rows)? {
        Some(found) => Ok(Some(guarded_lines(alloc, &found)?)),
        None => Ok(None),
    }
}

// Codes, and the lines of what guarding them comes to.
const GUARDED: [(&[Row], &str); 2] = [
    // each of two contributors would know the other's cell, but for a third cell that is hidden too
    (
        &LONE_CODES,
        "extra 3\nneed 3 0 2 above 1 0:1\nguard 1 above 1 1:12 3:-12\nguard 1 below 1 1:-12 3:12\nguard 2 above 1 2:9 3:-9\nguard 2 below 1 2:-9 3:9\n",
    ),
    // where all other cells are shown, nothing can be hidden against the first contributor
    (&LONE_CODES_ALONE, "cannot 2 above from 0: 1 0:1\n"),
];

#[test]
fn lone_contributors_need_an_extra_cell(rt: HostRuntime) -> Result<(), Fail> {
    let alloc = rt.alloc();
    for (rows, lines) in &GUARDED {
        assert!(rt; lines_guarding(alloc, rows)?.as_deref() == Some(*lines));
    }
    Ok(())
}

// The line of a world.
fn line(cell: u32, side: Side, world: World) -> WorldLine {
    WorldLine { cell, side, world }
}

// The lines of these worlds, for the two primary codes.
fn lines_of(alloc: Global) -> Result<Vec<WorldLine>, Fail> {
    let mut lines = Vec::new(alloc);
    lines.push(line(1, Side::Above, swap(alloc, 12, -12)?))?;
    lines.push(line(1, Side::Below, swap(alloc, -12, 12)?))?;
    lines.push(line(2, Side::Above, swap(alloc, -9, 9)?))?;
    lines.push(line(2, Side::Below, swap(alloc, 9, -9)?))?;
    Ok(lines)
}

// Whether the world of this line is one for the hidden set.
fn is_world(
    alloc: Global,
    system: &System,
    cells: &[Cell],
    hidden: &Hidden,
    line: &WorldLine,
) -> bool
    ensures { result ≡ true → IsGivenWorld system.now cells.now hidden.now.flags line.now.world }
{
    let size = system.cells as usize;
    if cells.len() != size || hidden.flags.as_slice().len() != size {
        return false;
    }
    let Ok(mut scratch) = Vec::from_elem(alloc, 0, size) else {
        return false;
    };
    check_world(system, cells, hidden, &line.world, &mut scratch).is_ok()
}

// What accepting an extra with these worlds answers; none where the trial can't be asked so.
fn accepted_in(
    alloc: Global,
    trial: &Trial,
    lines: &[WorldLine],
    extra: &Extra,
) -> Option<Result<(), ExtraFault>> {
    let Trial {
        system,
        cells,
        soles,
        hidden,
    } = trial;
    let size = system.cells as usize;
    if cells.len() != size || hidden.flags.as_slice().len() != size {
        return None;
    }
    if !lines
        .iter()
        .all(|line| is_world(alloc, system, cells, hidden, line))
    {
        return None;
    }
    Some(accept_extra(alloc, system, cells, soles, hidden, lines, extra))
}

// What accepting an extra for the two primary codes answers, none where something lacks.
fn accepted(
    alloc: Global,
    rows: &[Row],
    extra: &Extra,
) -> Result<Option<Result<(), ExtraFault>>, Fail> {
    let lines = lines_of(alloc)?;
    match trial_of(alloc, rows)? {
        Some(trial) => Ok(accepted_in(alloc, &trial, &lines, extra)),
        None => Ok(None),
    }
}

// What was found for the codes.
fn found_extra(alloc: Global) -> Result<Option<Extra>, Fail> {
    match guarded(alloc, &LONE_CODES)? {
        Some(Guarded::Guards(extra)) => Ok(Some(extra)),
        _ => Ok(None),
    }
}

// What was found is accepted.
#[test]
fn guards_that_are_found_are_accepted(rt: HostRuntime) -> Result<(), Fail> {
    let alloc = rt.alloc();
    let found = match found_extra(alloc)? {
        Some(extra) => accepted(alloc, &LONE_CODES, &extra)?,
        None => None,
    };
    assert!(rt; matches!(found, Some(Ok(()))));
    Ok(())
}

// What accepting answers where the last guard is missing.
fn accepted_without_the_last(alloc: Global) -> Result<Option<Result<(), ExtraFault>>, Fail> {
    let Some(mut less) = found_extra(alloc)? else {
        return Ok(None);
    };
    less.guards.pop();
    accepted(alloc, &LONE_CODES, &less)
}

#[test]
fn missing_guard_leaves_an_attack_open(rt: HostRuntime) -> Result<(), Fail> {
    let found = accepted_without_the_last(rt.alloc())?;
    assert!(rt;
        matches!(
            found,
            Some(Err(ExtraFault::Open {
                row: 0,
                cell: 2,
                side: Side::Below
            }))
        )
    );
    Ok(())
}
