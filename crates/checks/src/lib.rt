// What a step code stands for, by a table, and what the checks of a step say of it. PUBLIC: nothing here has a `requires`.
// Shared by all that take steps, with the words of a register or without them: a code is read and a step is refused in one place.
#![tactic(auto)]

mod kinds;
mod sheet;

ghost use Rattle.std.specs.Prelude.{true};
ghost use Rattle.rules.specs.steps.Checks.{asking};
ghost use Rattle.checks.specs.Meaning.{kind_is, verdict_is};
ghost use Rattle.checks.specs.Promises.{LookupPromise, EntryPromise, SaysPromise, KindPromise, VerdictPromise};

use crate::kinds::{is_begin, is_beyond};
use crate::sheet::UNKNOWN;
use replies::Refusal;
pub use sheet::plain_table;

// How many step codes there are, each with an entry in a table.
pub const CODES: usize = 256;

// What a step code asks for. In the entries of a table the steps are numbered in this order, from 1 on; 0 is that of no step.
#[derive(Clone, Copy, Debug, PartialEq, Eq)]
pub enum Step {
    Begin,
    Try,
    GiveUp,
    Read(usize),
    Write(usize),
}

// The entry of a step code in a table, and that of no step where the code is outside of it.
pub fn entry_by(table: &[u8], code: u32) -> u8
    ensures { LookupPromise table.now code result }
{
    let place = code as usize;
    if place < table.len() {
        return table[place];
    }
    UNKNOWN
}

// The entry of a step code in the plain sheet's table.
pub fn entry_of(code: u32) -> u8
    ensures { EntryPromise code result }
{
    entry_by(&plain_table(), code)
}

// The kind that an entry says: its step, if it is that of one.
pub fn kind_in(entry: u8) -> Option<Step>
    ensures { SaysPromise entry (kind_is result) }
{
    let cell = (entry % 32) as usize;
    match entry / 32 {
        1 => Some(Step::Begin),
        2 => Some(Step::Try),
        3 => Some(Step::GiveUp),
        4 => Some(Step::Read(cell)),
        5 => Some(Step::Write(cell)),
        _ => None,
    }
}

// The kind of a step code: the step that it stands for, if it stands for one.
pub fn kind_of(code: u32) -> Option<Step>
    ensures { KindPromise code (kind_is result) }
{
    kind_in(entry_of(code))
}

// What the checks say of a step where there are m cells and n handlers, in their order: 15, 11, 12, then 13 or 14. What passes them is the
// step itself, so that none that is refused can be taken. Only 10 goes before them, and it is for whoever has words to look at.
pub fn verdict_of(
    m: usize,
    n: u32,
    handler: u32,
    kind: Option<Step>,
    opened: bool,
) -> Result<Step, Refusal>
    ensures { VerdictPromise (asking true m n handler (kind_is kind) opened) (verdict_is result) }
{
    let Some(step) = kind else {
        return Err(Refusal::UnknownStep);
    };
    if n <= handler {
        return Err(Refusal::NoHandler);
    }
    if is_beyond(step, m) {
        return Err(Refusal::NoCell);
    }
    if is_begin(step) {
        return if opened {
            Err(Refusal::AlreadyOpen)
        } else {
            Ok(step)
        };
    }
    if opened {
        Ok(step)
    } else {
        Err(Refusal::NotOpen)
    }
}
