// A transactional register over words that the caller lends: opening it, steps of its handlers, and what is shown of a cell.
// PUBLIC: nothing here has a `requires`. Each promise fixes the reply and every word of the buffer, for all inputs.
#![tactic(auto)]

ghost use Rattle.promises.specs.Opening.{OpeningPromise};
ghost use Rattle.promises.specs.Stepping.{StepPromise};
ghost use Rattle.promises.specs.Lengths.{LengthPromise};
ghost use Rattle.replies.specs.Meaning.{reply_is, opening_is};
ghost use Rattle.replies.specs.Ends.{end_is};
ghost use Rattle.register.specs.Meaning.{needed_is};
ghost use Rattle.register.specs.Ending.{EndPromise};

use replies::{CellEnd, Refusal, Report};

// The words that a register of m cells and n handlers needs, if m and n are in range.
pub fn words_needed(m: u32, n: u32) -> Option<usize>
    ensures { LengthPromise m n (needed_is result) }
{
    if !limits::in_range(m, n) {
        return None;
    }
    Some(limits::FRONT + places::body_words(m as usize, n as usize))
}

// Opens a register of m cells and n handlers in front of the words.
pub fn open(words: &mut [u32], m: u32, n: u32) -> Result<(), Refusal>
    ensures { OpeningPromise words.old m n (opening_is result) words.new }
{
    if !limits::in_range(m, n) {
        return Err(Refusal::OutOfRange);
    }
    let cells = m as usize;
    let handlers = n as usize;
    let long = places::body_words(cells, handlers);
    if words.len() < limits::FRONT + long {
        return Err(Refusal::TooShort);
    }
    words::clear(&mut words[limits::FRONT..], 0, long);
    words[places::CELLS] = m;
    words[places::HANDLERS] = n;
    Ok(())
}

// Takes the step of a handler, or refuses it.
pub fn step(words: &mut [u32], handler: u32, code: u32, value: u32) -> Result<Report, Refusal>
    ensures { StepPromise words.old handler code value (reply_is result) words.new }
{
    if !formed::well_formed(words) {
        return Err(Refusal::NotWellFormed);
    }
    let entry = checks::entry_of(code);
    let turned = turns::step_formed(words, handler, entry, value);
    turns::answer_of(handler, code, turned)
}

// What a cell holds, and its own number, if the words are a register that has the cell.
pub fn cell_end(words: &[u32], c: u32) -> Option<CellEnd>
    ensures { EndPromise words.now c (end_is result) }
{
    if !formed::well_formed(words) {
        return None;
    }
    if words[places::CELLS] <= c {
        return None;
    }
    let m = words[places::CELLS] as usize;
    let k = c as usize;
    let start = limits::FRONT + places::cell_at(m, k).start;
    let number = words[start + places::NUMBERS + k];
    let content = replies::version_shows(number, words[start + places::VALUE]);
    Some(CellEnd { content, number })
}
