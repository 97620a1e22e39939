// A try: abort 2, abort 3, or commit.
ghost use Rattle.rules.specs.steps.Codes as Codes;
ghost use Rattle.replies.specs.Meaning.{outcome_is};
ghost use Rattle.steps.specs.Takes.{Ready, Takes, Commits};

use places::block_at;
use replies::{Outcome, Reason};

// A commit: the numbers are raised in the transaction's row, the written cells take it, and then the handler.
fn commit(body: &mut [u32], m: usize, n: usize, i: usize)
    requires { Ready m n body.old i Codes.try }
    ensures { Commits m n body.old i body.new }
{
    let span = block_at(m, i);
    let start = span.start;
    let set = body[start + places::WRITTEN_SET];
    let held = start + places::transaction_numbers(m);
    let copies = start + places::copies(m);
    stores::stamp(body, m, set, held);
    stores::store(body, m, set, copies, held);
    block::settle(&mut body[span], m);
}

// A try.
pub fn attempt(body: &mut [u32], m: usize, n: usize, i: usize) -> Outcome
    requires { Ready m n body.old i Codes.try }
    ensures { Takes m n body.old i Codes.try 0 (outcome_is result) body.new }
{
    let span = block_at(m, i);
    let start = span.start;
    let read = body[start + places::READ_SET];
    let written = body[start + places::WRITTEN_SET];
    let held = start + places::transaction_numbers(m);
    if let Some(z) = searches::overtaken(body, m, read, held) {
        block::rest(&mut body[span], m);
        return Outcome::Aborted(Reason::Overtaken(z));
    }
    if let Some(z) = searches::spent(body, m, written) {
        block::rest(&mut body[span], m);
        return Outcome::Aborted(Reason::Spent(z));
    }
    commit(body, m, n, i);
    Outcome::Committed
}
