// A step that no check refuses, taken.
ghost use Rattle.replies.specs.Meaning.{outcome_is};
ghost use Rattle.steps.specs.Takes.{Ready, Takes};
ghost use Rattle.checks.specs.Meaning.{step_is};

use checks::Step;
use replies::Outcome;

// Takes the step.
pub fn take(body: &mut [u32], m: usize, n: usize, i: usize, step: Step, value: u32) -> Outcome
    requires { Ready m n body.old i (step_is step) }
    ensures { Takes m n body.old i (step_is step) value (outcome_is result) body.new }
{
    match step {
        Step::Begin => {
            steps::begin(body, m, n, i);
            Outcome::Done
        }
        Step::Try => steps::attempt(body, m, n, i),
        Step::GiveUp => steps::give_up(body, m, n, i),
        Step::Read(x) => steps::read(body, m, n, i, x),
        Step::Write(x) => {
            steps::write(body, m, n, i, x, value);
            Outcome::Done
        }
    }
}
