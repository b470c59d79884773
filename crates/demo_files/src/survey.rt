ghost use Rattle.std.specs.Prelude.{◌≡◌, ◌<◌, ◌≤◌, ◌++◌, IfOk, OnOk};
ghost use Rattle.demo_files.specs.Draws.{state_after};
ghost use Rattle.demo_files.specs.Surveys as surveys;

use crate::draws::draw;
use sdc_base::Memory;
use std::alloc::Global;

// The lines of so many records, drawn from a seed.
pub(crate) fn survey(alloc: Global, seed: u64, records: u32) -> Result<Vec<u8>, Memory>
    ensures { IfOk result (λ lines. lines.items ≡ surveys.survey seed records) }
{
    let mut text = String::new(alloc);
    let mut state = seed;
    'records: for number in 0..records {
        let _number = number;
        add_record(alloc, &mut text, &mut state)?;
    }
    Ok(text.into_bytes())
}

// Adds the line of a record, by its six draws.
fn add_record(alloc: Global, text: &mut String, state: &mut u64) -> Result<(), Memory>
    ensures text { OnOk result (text.new.bytes.items ≡ text.old.bytes.items ++ surveys.record_line state.old) }
    ensures state { OnOk result (state.new ≡ state_after 6 state.old) }
{
    let region = two_digits(alloc, 1 + draw(state, 12))?;
    let industry = char::from(b'A' + draw(state, 4) as u8);
    let branch = 1 + draw(state, 5);
    let size = 1 + draw(state, 4);
    let amount = draw(state, 10_000);
    let rare = draw(state, 20);
    let turnover = seven_places(alloc, turnover_of(amount, rare))?;
    let line = format!(in alloc; "R{region}{industry}{branch}S{size}{turnover}\n")?;
    text.push_str(line.as_str())?;
    Ok(())
}

// A turnover by two draws: one in twenty is 50 times as great.
fn turnover_of(amount: u64, rare: u64) -> u64
    requires { amount < 10000 }
    ensures { result ≡ surveys.turnover amount rare }
{
    if rare == 0 {
        (1 + amount) * 50
    } else {
        1 + amount
    }
}

// A number in two places, a zero before one digit.
fn two_digits(alloc: Global, number: u64) -> Result<String, Memory>
    ensures { IfOk result (λ text. text.bytes.items ≡ surveys.filled_number 48 2 number) }
{
    Ok(format!(in alloc; "{number:02}")?)
}

// A number in seven places, blanks before its digits.
fn seven_places(alloc: Global, number: u64) -> Result<String, Memory>
    ensures { IfOk result (λ text. text.bytes.items ≡ surveys.filled_number 32 7 number) }
{
    Ok(format!(in alloc; "{number:7}")?)
}
