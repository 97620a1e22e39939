// The step of the plain register on words that are known to be one: m and n stand in front, and the rest is a turn on the body.
ghost use Rattle.std.specs.Prelude.{◌≡◌, ℕ};
ghost use Rattle.rules.specs.steps.Codes.{plain_sheet};
ghost use Rattle.layout.specs.WellFormed.{WellFormed};
ghost use Rattle.promises.specs.Stepping.{StepPromise};
ghost use Rattle.checks.specs.Entries.{entry_says};
ghost use Rattle.turns.specs.Meaning.{turned_is};

use crate::turn;
use replies::{Outcome, Refusal};

// Takes the step of a handler that an entry says, or refuses it, with no test of 10: that of every code with such an entry. It leaves a
// register that is well formed again, so that whoever tested once can go on.
pub fn step_formed(
    words: &mut [u32],
    handler: u32,
    entry: u8,
    value: u32,
) -> Result<Outcome, Refusal>
    requires { WellFormed words.old }
    ensures { (code : ℕ) → entry_says entry ≡ plain_sheet code
        → StepPromise words.old handler code value (turned_is handler code result) words.new × WellFormed words.new }
{
    let m = words[places::CELLS] as usize;
    let n = words[places::HANDLERS] as usize;
    turn(
        &mut words[limits::FRONT..],
        m,
        n,
        handler,
        checks::kind_in(entry),
        value,
    )
}
