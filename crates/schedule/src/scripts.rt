// The steps of a script: what stands in front of what is left of it, and whether it is whole. Internal.
ghost use Rattle.std.specs.Prelude.{◌≡◌, ◌≤◌, length, drop};
ghost use Rattle.rules.specs.steps.Codes.{known, plain_sheet};
ghost use Rattle.checks.specs.Meaning.{step_is};
ghost use Rattle.checks.specs.Promises.{TablePromise};
ghost use Rattle.schedule.specs.Scripts.{value_behind, is_whole};
ghost use Rattle.schedule.specs.Fronts.{step_bytes, FrontOf};

use crate::table::long_at;
use checks::Step;
use replies::Refusal;

// A step that stands in front of what is left of a script: its code, its value, and how many bytes it takes.
#[derive(Clone, Copy, Debug, PartialEq, Eq)]
pub struct Standing {
    pub code: u8,
    pub value: u32,
    pub long: usize,
}

// The bytes that a step takes, its value with it.
fn step_bytes(step: Step) -> usize
    ensures { result ≡ step_bytes (known (step_is step)) }
{
    match step {
        Step::Begin => 1,
        Step::Try => 1,
        Step::GiveUp => 1,
        Step::Read(_) => 1,
        Step::Write(_) => 5,
    }
}

// The value of the step at the front of some bytes; 0 where it is no write.
fn value_behind(step: Step, bytes: &[u8]) -> u32
    requires { step_bytes (known (step_is step)) ≤ length bytes.now }
    ensures { result ≡ value_behind (known (step_is step)) bytes.now }
{
    match step {
        Step::Write(_) => long_at(bytes, 1),
        Step::Begin | Step::Try | Step::GiveUp | Step::Read(_) => 0,
    }
}

// What stands in front of a script that is used up to a place, by the table of the plain sheet.
pub fn in_front(script: &[u8], at: usize, table: &[u8]) -> Result<Standing, Refusal>
    requires { TablePromise plain_sheet table.now }
    ensures { FrontOf (drop at script.now) result }
{
    if script.len() <= at {
        return Err(Refusal::UsedUp);
    }
    let left = &script[at..];
    let code = left[0];
    let entry = checks::entry_by(table, code as u32);
    let Some(step) = checks::kind_in(entry) else {
        return Err(Refusal::UnknownStep);
    };
    let long = step_bytes(step);
    if left.len() < long {
        return Err(Refusal::UnknownStep);
    }
    let value = value_behind(step, left);
    Ok(Standing { code, value, long })
}

// Whether every code of a script is known, by the table of the plain sheet, and no write is cut short.
pub fn whole(script: &[u8], table: &[u8]) -> bool
    requires { TablePromise plain_sheet table.now }
    ensures { result ≡ is_whole script.now }
{
    let mut left = script;
    while let Ok(standing) = in_front(left, 0, table) {
        left = &left[standing.long..];
    }
    left.is_empty()
}
