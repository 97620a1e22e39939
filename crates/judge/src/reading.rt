// What the judge looks at before a step: whether the words are a ledger, whether a handler is open, whether there is room.
ghost use Rattle.std.specs.Prelude.{◌≡◌, ◌&&◌, leb};
ghost use Rattle.std.specs.Bool.{OnTrue};
ghost use Rattle.ledger.specs.Entries.{Ledger, is_ledger, commits_noted, most_commits};
ghost use Rattle.ledger.specs.Histories.{history_in};
ghost use Rattle.ledger.specs.Promises.{is_commit};
ghost use Rattle.checks.specs.Meaning.{step_is};
ghost use Rattle.judge.specs.Taking.{JudgeReady, answer_of};

use checks::Step;
use past::{History, Row};

// Whether the words are a ledger.
#[tactic(auto, using(crate::proofs::Tests::ledger_tests))]
pub fn is_ledger(words: &[u32]) -> bool
    ensures tested { result ≡ is_ledger words.now }
    ensures kept { OnTrue result (Ledger words.now) }
{
    limits::LEDGER_WORDS <= words.len()
        && limits::in_range(words[places::CELLS], words[places::HANDLERS])
        && words[places::COMMITS_NOTED] <= limits::MOST_COMMITS
}

// Whether a handler's transaction is open; beyond the handlers none is.
#[tactic(auto, using(crate::proofs::Tests::beyond_idle, crate::proofs::Tests::phase_told))]
pub fn is_open(words: &[u32], handler: u32) -> bool
    requires { Ledger words.now }
    ensures { result ≡ (history_in words.now).opened handler }
{
    if words[places::HANDLERS] <= handler {
        return false;
    }
    let i = handler as usize;
    let index = places::handler_row(i);
    Row { words, index }.head() != 0
}

// Whether a step that no check refuses would be one commit more than are noted.
#[tactic(auto, using(crate::proofs::Tests::room_left, crate::proofs::Tests::other_passes))]
pub fn is_too_many(words: &[u32], m: usize, i: usize, step: Step) -> bool
    requires { JudgeReady words.now m i (step_is step) }
    ensures { result ≡ (leb most_commits (commits_noted words.now) && is_commit (answer_of words.now i (step_is step))) }
{
    let count = words[places::COMMITS_NOTED] as usize;
    if count < limits::COMMIT_TABLE {
        return false;
    }
    let row = Row {
        words,
        index: places::handler_row(i),
    };
    matches!(step, Step::Try) && answers::overtaken_cell(History { words, count }, m, row).is_none()
}
