// What the checks ask of a step.
ghost use Rattle.std.specs.Prelude.{◌≡◌};
ghost use Rattle.rules.specs.steps.Codes.{known};
ghost use Rattle.rules.specs.steps.Checks.{is_beyond, is_begin};
ghost use Rattle.checks.specs.Meaning.{step_is};

use crate::Step;

// A read or a write of cell m or above.
pub fn is_beyond(step: Step, m: usize) -> bool
    ensures { result ≡ is_beyond m (known (step_is step)) }
{
    match step {
        Step::Read(x) | Step::Write(x) => m <= x,
        Step::Begin | Step::Try | Step::GiveUp => false,
    }
}

// A begin.
pub fn is_begin(step: Step) -> bool
    ensures { result ≡ is_begin (known (step_is step)) }
{
    matches!(step, Step::Begin)
}
