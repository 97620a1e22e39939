// The replies of a register, as its callers see them: a report with an outcome with a reason, or a refusal; their numbers; and what is
// shown of a cell at the end. PUBLIC: nothing here has a `requires`.
#![tactic(auto)]

ghost use Rattle.std.specs.Prelude.{◌≡◌};
ghost use Rattle.rules.specs.steps.Tables.{place_of};
ghost use Rattle.rules.specs.steps.Replies.{reason_cell, content_numbers};
ghost use Rattle.replies.specs.Meaning.{reason_is, content_is, outcome_is, reply_is, numbers_are};
ghost use Rattle.replies.specs.Numbers.{VersionPromise, ReasonPromise, RefusalPromise, OutcomePromise, NumbersPromise};

// Why a transaction was aborted, and by which cell: the lowest that meets the condition.
#[derive(Clone, Copy, Debug, PartialEq, Eq)]
pub enum Reason {
    Torn(u8),
    Overtaken(u8),
    Spent(u8),
    GaveUp,
}

// What a step that is taken comes to. What is shown of a cell that was never written is nothing, and else its value.
#[derive(Clone, Copy, Debug, PartialEq, Eq)]
pub enum Outcome {
    Done,
    Shows(Option<u32>),
    Committed,
    Aborted(Reason),
}

// A report names handler and step, and holds the outcome.
#[derive(Clone, Copy, Debug, PartialEq, Eq)]
pub struct Report {
    pub handler: u32,
    pub code: u32,
    pub outcome: Outcome,
}

// Why a step, an opening, a schedule file or an order place is refused, why the judge stops, why a sheet takes no file, and why a row is
// not begun: each with its number.
#[derive(Clone, Copy, Debug, PartialEq, Eq)]
pub enum Refusal {
    NotWellFormed = 10,
    NoHandler = 11,
    NoCell = 12,
    AlreadyOpen = 13,
    NotOpen = 14,
    UnknownStep = 15,
    OutOfRange = 20,
    TooShort = 21,
    BadFile = 30,
    UsedUp = 32,
    TooManyCommits = 33,
    SheetFull = 41,
    NoRoom = 42,
}

// An answer in numbers: its kind (0 ok, 1 value, 2 commit, 3 abort, 4 refused, 5 unset), its value or number, and the cell that it names;
// each 0 where there is none.
#[derive(Clone, Copy, Debug, PartialEq, Eq)]
pub struct Numbers {
    pub kind: u32,
    pub detail: u32,
    pub cell: u32,
}

// A cell at the end: what it holds, and its own number.
#[derive(Clone, Copy, Debug, PartialEq, Eq)]
pub struct CellEnd {
    pub content: Option<u32>,
    pub number: u32,
}

// What a version of a number shows: the opening's, which has number 0, nothing.
#[tactic(auto, using(rules::proofs::steps::Steps::shows_nothing, rules::proofs::steps::Steps::shows_value))]
pub fn version_shows(number: u32, value: u32) -> Option<u32>
    ensures { VersionPromise number value (content_is result) }
{
    if number == 0 { None } else { Some(value) }
}

// The number of a reason.
pub fn reason_number(reason: Reason) -> u32
    ensures { ReasonPromise reason result }
{
    match reason {
        Reason::Torn(_) => 1,
        Reason::Overtaken(_) => 2,
        Reason::Spent(_) => 3,
        Reason::GaveUp => 5,
    }
}

// The cell that a reason names; 0 where it names none.
fn reason_cell(reason: Reason) -> u8
    ensures { result ≡ place_of (reason_cell (reason_is reason)) }
{
    match reason {
        Reason::Torn(y) => y,
        Reason::Overtaken(z) => z,
        Reason::Spent(z) => z,
        Reason::GaveUp => 0,
    }
}

// The number of a refusal.
pub fn refusal_number(refusal: Refusal) -> u32
    ensures { RefusalPromise refusal result }
{
    refusal as u32
}

// What is shown of a cell, in numbers.
fn content_numbers(content: Option<u32>) -> Numbers
    ensures { numbers_are result ≡ content_numbers (content_is content) }
{
    match content {
        None => Numbers {
            kind: 5,
            detail: 0,
            cell: 0,
        },
        Some(value) => Numbers {
            kind: 1,
            detail: value,
            cell: 0,
        },
    }
}

// An outcome in numbers.
pub fn outcome_numbers(outcome: Outcome) -> Numbers
    ensures { OutcomePromise (outcome_is outcome) (numbers_are result) }
{
    match outcome {
        Outcome::Done => Numbers {
            kind: 0,
            detail: 0,
            cell: 0,
        },
        Outcome::Shows(content) => content_numbers(content),
        Outcome::Committed => Numbers {
            kind: 2,
            detail: 0,
            cell: 0,
        },
        Outcome::Aborted(reason) => Numbers {
            kind: 3,
            detail: reason_number(reason),
            cell: reason_cell(reason) as u32,
        },
    }
}

// The answer to a step in numbers.
pub fn numbers_of(answer: Result<Report, Refusal>) -> Numbers
    ensures { NumbersPromise (reply_is answer) (numbers_are result) }
{
    match answer {
        Ok(report) => outcome_numbers(report.outcome),
        Err(refusal) => Numbers {
            kind: 4,
            detail: refusal_number(refusal),
            cell: 0,
        },
    }
}
