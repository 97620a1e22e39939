// The schedule file: its admission, a handler's script as a part of it, and the next step at an order place.
// PUBLIC: nothing here has a `requires`. Each promise fixes the reply for every file, whatever its bytes and its length.
#![tactic(auto)]

mod scripts;
mod sound;
mod table;
mod taking;

ghost use Rattle.std.specs.Prelude.{◌≡◌, ◌+◌, ◌≤◌, length};
ghost use Rattle.schedule.specs.Bytes.{bytes_at};
ghost use Rattle.schedule.specs.Fronts.{ScriptAt};
ghost use Rattle.schedule.specs.Admitting.{AdmissionPromise};
ghost use Rattle.schedule.specs.Finding.{ScriptPromise, PartPromise, AnswerPromise};
ghost use Rattle.schedule.specs.Taking.{StartPromise, NextPromise, PlacesPromise};
ghost use Rattle.schedule.specs.Meaning.{admission_is, found_is, next_is};

use crate::sound::sound_file;
use crate::taking::{named_step, order_byte};
use replies::Refusal;

// How many handlers and cells a file has.
#[derive(Clone, Copy, Debug, PartialEq, Eq)]
pub struct Sizes {
    pub handlers: u32,
    pub cells: u32,
}

// A part of a file, by where it begins and how long it is.
#[derive(Clone, Copy, Debug, PartialEq, Eq)]
pub struct Part {
    pub offset: usize,
    pub length: usize,
}

impl Part {
    // The bytes of a file that lie there.
    pub(crate) fn bytes(self, file: &[u8]) -> &[u8]
        requires { self.offset + self.length ≤ length file.now }
        ensures { result.now ≡ bytes_at file.now self }
    {
        let end = self.offset + self.length;
        &file[self.offset..end]
    }
}

// Of each handler, the place in its script up to which it is used up.
#[derive(Clone, Copy, Debug, PartialEq, Eq)]
pub struct Cursors {
    pub at: [usize; limits::HANDLER_TABLE],
}

// What comes next at an order place.
#[derive(Clone, Copy, Debug, PartialEq, Eq)]
pub enum Next {
    Rejected(Refusal),
    Over,
    Refused { handler: u8, refusal: Refusal },
    Taken { handler: u8, code: u8, value: u32 },
}

// What comes next, and the cursors afterwards.
#[derive(Clone, Copy, Debug, PartialEq, Eq)]
pub struct Step {
    pub next: Next,
    pub cursors: Cursors,
}

// Admits a file with its sizes or refuses it, before its first step.
#[tactic(auto, using(crate::proofs::Admits::admitted_unsound, crate::proofs::Admits::admitted_spoilt, crate::proofs::Admits::admitted_sound))]
pub fn admit_file(file: &[u8]) -> Result<Sizes, Refusal>
    ensures { AdmissionPromise file.now (admission_is result) }
{
    let sound = sound_file(file)?;
    if !sound.all_whole() {
        return Err(Refusal::UnknownStep);
    }
    Ok(sound.sizes)
}

// The entry of a handler's script in the file, or why it is not found.
#[tactic(auto, using(crate::proofs::Finds::script_unsound, crate::proofs::Finds::script_beyond, crate::proofs::Finds::script_there))]
fn find_script(file: &[u8], handler: u32) -> Result<Part, Refusal>
    ensures { ScriptAt file.now handler result }
{
    let sound = sound_file(file)?;
    if sound.sizes.handlers <= handler {
        return Err(Refusal::NoHandler);
    }
    Ok(sound.table.entry(handler as usize))
}

// Whether a handler's script is found, or why not.
pub fn script_answer(file: &[u8], handler: u32) -> Result<(), Refusal>
    ensures { AnswerPromise file.now handler (found_is result) }
{
    find_script(file, handler)?;
    Ok(())
}

// Where a handler's script lies in the file; at 0 and 0 long where it is not found.
#[tactic(auto, using(crate::proofs::Finds::part_given))]
pub fn script_part(file: &[u8], handler: u32) -> Part
    ensures { PartPromise file.now handler result }
{
    find_script(file, handler).unwrap_or(Part {
        offset: 0,
        length: 0,
    })
}

// A handler's script, as the very part of the file; empty where it is not found.
#[tactic(auto, using(crate::proofs::Finds::part_inside))]
pub fn script(file: &[u8], handler: u32) -> &[u8]
    ensures { ScriptPromise file.now handler result.now }
{
    script_part(file, handler).bytes(file)
}

// How many places the order has; none in a file that is not sound.
#[tactic(auto, using(crate::proofs::Nexts::places_none, crate::proofs::Nexts::places_there))]
pub fn order_places(file: &[u8]) -> usize
    ensures { PlacesPromise file.now result }
{
    match sound_file(file) {
        Ok(sound) => sound.order().len(),
        Err(_) => 0,
    }
}

// No step is used up.
pub fn at_start() -> Cursors
    ensures { StartPromise result.at }
{
    Cursors {
        at: [0; limits::HANDLER_TABLE],
    }
}

// The next step at an order place.
pub fn next_step(file: &[u8], cursors: Cursors, place: usize) -> Step
    ensures { NextPromise file.now cursors.at place (next_is result.next) result.cursors.at }
{
    let sound = match sound_file(file) {
        Ok(sound) => sound,
        Err(refusal) => {
            let next = Next::Rejected(refusal);
            return Step { next, cursors };
        }
    };
    let Some(handler) = order_byte(&sound, place) else {
        let next = Next::Over;
        return Step { next, cursors };
    };
    named_step(&sound, cursors, handler)
}
