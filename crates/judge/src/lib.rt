// The judge: steps answered from the history alone, noted in words that the caller lends, at most 64 commits. It keeps no vectors.
// PUBLIC: nothing here has a `requires`. Each promise fixes the reply and every word of the buffer, for all inputs.
#![tactic(auto)]

mod reading;
mod taking;

ghost use Rattle.ledger.specs.Promises.{LedgerPromise, JudgedPromise};
ghost use Rattle.replies.specs.Meaning.{reply_is, opening_is};
ghost use Rattle.replies.specs.Ends.{end_is};
ghost use Rattle.judge.specs.Lengths.{NeededPromise};
ghost use Rattle.judge.specs.Ending.{JudgedEndPromise};

use crate::reading::{is_ledger, is_open};
use crate::taking::pass;
use past::History;
use replies::{CellEnd, Refusal, Report};

// The words that the judge needs, for any numbers of cells and handlers.
pub fn words_needed() -> usize
    ensures { NeededPromise result }
{
    limits::LEDGER_WORDS
}

// Opens a ledger for m cells and n handlers in front of the words.
#[tactic(auto, using(crate::proofs::Opening::ledger_short, crate::proofs::Opening::short_left, crate::proofs::Opening::short_said))]
pub fn open(words: &mut [u32], m: u32, n: u32) -> Result<(), Refusal>
    ensures { LedgerPromise words.old m n (opening_is result) words.new }
{
    if !limits::in_range(m, n) {
        return Err(Refusal::OutOfRange);
    }
    if words.len() < limits::LEDGER_WORDS {
        return Err(Refusal::TooShort);
    }
    words::clear(words, limits::FRONT, limits::LEDGER_BEHIND);
    words[places::CELLS] = m;
    words[places::HANDLERS] = n;
    Ok(())
}

// Judges the step of a handler, or refuses it.
pub fn step(words: &mut [u32], handler: u32, code: u32, value: u32) -> Result<Report, Refusal>
    ensures { JudgedPromise words.old handler code value (reply_is result) words.new }
{
    if !is_ledger(words) {
        return Err(Refusal::NotWellFormed);
    }
    let kind = checks::kind_of(code);
    let opened = is_open(words, handler);
    let step = checks::verdict_of(
        words[places::CELLS] as usize,
        words[places::HANDLERS],
        handler,
        kind,
        opened,
    )?;
    pass(words, handler, code, step, value)
}

// What a cell holds, and how many commits wrote it.
#[tactic(auto, using(crate::proofs::Ends::no_end, crate::proofs::Ends::end_beyond, crate::proofs::Ends::end_shown))]
pub fn cell_end(words: &[u32], c: u32) -> Option<CellEnd>
    ensures { JudgedEndPromise words.now c (end_is result) }
{
    if !is_ledger(words) || words[places::CELLS] <= c {
        return None;
    }
    let x = c as usize;
    let history = History {
        words,
        count: words[places::COMMITS_NOTED] as usize,
    };
    Some(CellEnd {
        content: answers::present_content(history, x),
        number: answers::present_version(history, x).number,
    })
}
