// One handler's counts of a duty sheet: which count an answer to a step raises, and counts brought up to date with it, by value and where
// they stand. Internal: called by `sheets` alone.
#![tactic(auto)]

ghost use Rattle.std.specs.Prelude.{◌≡◌};
ghost use Rattle.rules.specs.steps.Codes.{plain_sheet};
ghost use Rattle.replies.specs.Meaning.{outcome_is, reply_is};
ghost use Rattle.counts.specs.Counting.{raised, raised_by};
ghost use Rattle.counts.specs.Rows.{count_is, BroughtUp, Room};

use checks::{Step, kind_of};
use replies::{Outcome, Reason, Refusal, Report};

// One handler's counts.
#[derive(Clone, Copy, Debug, PartialEq, Eq)]
pub struct Counts {
    pub begun: u32,
    pub committed: u32,
    pub torn: u32,
    pub overtaken: u32,
    pub spent: u32,
    pub given_up: u32,
}

// The counts of a handler, each by its name.
#[derive(Clone, Copy, Debug, PartialEq, Eq)]
enum Count {
    Begun,
    Committed,
    Torn,
    Overtaken,
    Spent,
    GaveUp,
}

// The count that an outcome raises: a reason has its own, and of steps that are done a begin alone. What the code stands for is looked up
// only where it decides.
#[tactic(auto, unfolding(crate::specs::Counting::raised_by))]
fn raised_by(code: u32, outcome: Outcome) -> Option<Count>
    ensures { count_is result ≡ raised_by (plain_sheet code) (outcome_is outcome) }
{
    match outcome {
        Outcome::Done => match kind_of(code) {
            Some(Step::Begin) => Some(Count::Begun),
            _ => None,
        },
        Outcome::Shows(_) => None,
        Outcome::Committed => Some(Count::Committed),
        Outcome::Aborted(Reason::Torn(_)) => Some(Count::Torn),
        Outcome::Aborted(Reason::Overtaken(_)) => Some(Count::Overtaken),
        Outcome::Aborted(Reason::Spent(_)) => Some(Count::Spent),
        Outcome::Aborted(Reason::GaveUp) => Some(Count::GaveUp),
    }
}

// The count that an answer to a step code raises.
#[tactic(auto, unfolding(crate::specs::Counting::raised))]
fn raised(code: u32, answer: Result<Report, Refusal>) -> Option<Count>
    ensures { count_is result ≡ raised code (reply_is answer) }
{
    match answer {
        Ok(report) => raised_by(code, report.outcome),
        Err(_) => None,
    }
}

// The counts with one of them raised, if one is.
#[tactic(auto, using(crate::proofs::Columns::brought_up_by), unfolding(crate::specs::Counting::is_in))]
fn with_raised(counts: Counts, raised: Option<Count>) -> Counts
    requires { Room counts }
    ensures { BroughtUp (count_is raised) counts result }
{
    match raised {
        Some(Count::Begun) => Counts {
            begun: counts.begun + 1,
            ..counts
        },
        Some(Count::Committed) => Counts {
            committed: counts.committed + 1,
            ..counts
        },
        Some(Count::Torn) => Counts {
            torn: counts.torn + 1,
            ..counts
        },
        Some(Count::Overtaken) => Counts {
            overtaken: counts.overtaken + 1,
            ..counts
        },
        Some(Count::Spent) => Counts {
            spent: counts.spent + 1,
            ..counts
        },
        Some(Count::GaveUp) => Counts {
            given_up: counts.given_up + 1,
            ..counts
        },
        None => counts,
    }
}

// The counts brought up to date with an answer to a step code.
pub fn brought_up(counts: Counts, code: u32, answer: Result<Report, Refusal>) -> Counts
    requires { Room counts }
    ensures { BroughtUp (raised code (reply_is answer)) counts result }
{
    with_raised(counts, raised(code, answer))
}

// Brings one handler's counts up to date where they stand. It stores what the by-value update returns, so that all there is to prove of
// counts is proved of values.
pub fn bring_up(counts: &mut Counts, code: u32, answer: Result<Report, Refusal>)
    requires { Room counts.old }
    ensures { BroughtUp (raised code (reply_is answer)) counts.old counts.new }
{
    *counts = brought_up(*counts, code, answer);
}

// The counts brought up to date, lent for it. Its callers hold no reference, so the check follows their code by itself.
pub fn kept_up(counts: Counts, code: u32, answer: Result<Report, Refusal>) -> Counts
    requires { Room counts }
    ensures { BroughtUp (raised code (reply_is answer)) counts result }
{
    let mut kept = counts;
    bring_up(&mut kept, code, answer);
    kept
}
