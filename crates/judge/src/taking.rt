// A step that no check refuses: a 65th commit is refused, and everything else is answered and noted.
ghost use Rattle.std.specs.Prelude.{◌≡◌, ℕ};
ghost use Rattle.rules.specs.steps.Codes.{try, read};
ghost use Rattle.layout.specs.Places.{cells_of};
ghost use Rattle.replies.specs.Meaning.{outcome_is, reply_is};
ghost use Rattle.checks.specs.Meaning.{step_is};
ghost use Rattle.judge.specs.Taking.{JudgeReady, Able, TakesNoted, Passes};

use crate::reading::is_too_many;
use checks::Step;
use past::{History, Row};
use replies::{Outcome, Reason, Refusal, Report};

// A read of the cell x: what its copy shows, or abort 1, or what its present version shows.
fn read(words: &mut [u32], m: usize, i: usize, x: usize) -> Outcome
    requires { JudgeReady words.old m i (read x) }
    ensures { (v : ℕ) → TakesNoted words.old i (read x) v (outcome_is result) words.new }
{
    let index = places::handler_row(i);
    let row = Row { words, index };
    if answers::has_copy(row, x) {
        return Outcome::Shows(answers::copy_content(row, x));
    }
    let count = words[places::COMMITS_NOTED] as usize;
    let history = History { words, count };
    let place = answers::writer_of(history, x);
    if let Some(y) = answers::torn_cell(history, m, row, place) {
        noting::empty_row(words, index, 0);
        return Outcome::Aborted(Reason::Torn(y));
    }
    let content = answers::present_content(history, x);
    // Of a read that showed nothing the word 0 is noted.
    noting::note_read(words, index, x, place, content.unwrap_or(0));
    Outcome::Shows(content)
}

// A try: abort 2, or commit.
fn attempt(words: &mut [u32], m: usize, i: usize) -> Outcome
    requires { Able words.old m i try }
    ensures { (v : ℕ) → TakesNoted words.old i try v (outcome_is result) words.new }
{
    let index = places::handler_row(i);
    let row = Row { words, index };
    let count = words[places::COMMITS_NOTED] as usize;
    let history = History { words, count };
    if let Some(z) = answers::overtaken_cell(history, m, row) {
        noting::empty_row(words, index, 0);
        return Outcome::Aborted(Reason::Overtaken(z));
    }
    noting::note_commit(words, i);
    Outcome::Committed
}

// Takes the step, and notes what it comes to.
fn take(words: &mut [u32], m: usize, i: usize, step: Step, value: u32) -> Outcome
    requires { Able words.old m i (step_is step) }
    ensures { TakesNoted words.old i (step_is step) value (outcome_is result) words.new }
{
    match step {
        Step::Begin => {
            noting::empty_row(words, places::handler_row(i), 1);
            Outcome::Done
        }
        Step::Try => attempt(words, m, i),
        Step::GiveUp => {
            noting::empty_row(words, places::handler_row(i), 0);
            Outcome::Aborted(Reason::GaveUp)
        }
        Step::Read(x) => read(words, m, i, x),
        Step::Write(x) => {
            noting::note_write(words, places::handler_row(i), x, value);
            Outcome::Done
        }
    }
}

// Takes a step that no check refuses, unless it would be a 65th commit.
#[tactic(auto, using(crate::proofs::Passing::has_room))]
pub fn pass(
    words: &mut [u32],
    handler: u32,
    code: u32,
    step: Step,
    value: u32,
) -> Result<Report, Refusal>
    requires { JudgeReady words.old (cells_of words.old) handler (step_is step) }
    ensures { Passes words.old handler code (step_is step) value (reply_is result) words.new }
{
    let m = words[places::CELLS] as usize;
    let i = handler as usize;
    if is_too_many(words, m, i, step) {
        return Err(Refusal::TooManyCommits);
    }
    let outcome = take(words, m, i, step, value);
    Ok(Report {
        handler,
        code,
        outcome,
    })
}
