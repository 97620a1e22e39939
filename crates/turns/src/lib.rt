// A turn on a register's body, whatever stands in front of it: the checks of a step, then the step; and the plain register's step, with no
// test of 10.
// Internal: called by our crates alone, which show what each function requires.
#![tactic(auto)]

mod formed;
mod take;

ghost use Rattle.std.specs.Prelude.{◌≡◌, ℕ, ◌≤◌};
ghost use Rattle.rules.specs.steps.Codes.{Sheet};
ghost use Rattle.rules.specs.steps.Register.{has_open};
ghost use Rattle.limits.specs.Limits.{most_handlers};
ghost use Rattle.layout.specs.View.{view};
ghost use Rattle.promises.specs.Bodies.{BodyPromise};
ghost use Rattle.replies.specs.Meaning.{reply_is};
ghost use Rattle.checks.specs.Meaning.{kind_is};
ghost use Rattle.steps.specs.Takes.{Formed, WholeBody};
ghost use Rattle.turns.specs.Meaning.{turned_is};

use crate::take::take;
use checks::Step;
pub use formed::step_formed;
use replies::{Outcome, Refusal, Report};

// Whether a handler's transaction is open; of handler n or above there is none.
fn has_open(body: &[u32], m: usize, n: usize, handler: u32) -> bool
    requires { Formed m n body.now × (n ≤ most_handlers) }
    ensures { result ≡ has_open ((view m n body.now).handlers handler) }
{
    let i = handler as usize;
    i < n && steps::is_open(body, m, n, i)
}

// Takes the step of a handler, or refuses it. Who asked, and by which code, its caller knows. Which code asks for a step of this kind is the caller's to say: it holds of every code and
// under every sheet that gives the code this kind.
pub fn turn(
    body: &mut [u32],
    m: usize,
    n: usize,
    handler: u32,
    kind: Option<Step>,
    value: u32,
) -> Result<Outcome, Refusal>
    requires { WholeBody m n body.old }
    ensures { (sheet : Sheet) (code : ℕ) → sheet code ≡ kind_is kind
        → BodyPromise sheet m n body.old handler code value (turned_is handler code result) body.new }
{
    let opened = has_open(body, m, n, handler);
    let step = checks::verdict_of(m, n as u32, handler, kind, opened)?;
    Ok(take(body, m, n, handler as usize, step, value))
}

// The answer to a handler's step by a code, by what its turn came to.
pub fn answer_of(
    handler: u32,
    code: u32,
    turned: Result<Outcome, Refusal>,
) -> Result<Report, Refusal>
    ensures { reply_is result ≡ turned_is handler code turned }
{
    Ok(Report {
        handler,
        code,
        outcome: turned?,
    })
}
