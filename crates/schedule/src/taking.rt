// One order place: the handler that it names, and that handler's next step. Internal.
ghost use Rattle.schedule.specs.Meaning.{next_is};
ghost use Rattle.schedule.specs.Fronts.{OrderOf, NamedNext};

use crate::scripts::{Standing, in_front};
use crate::sound::Sound;
use crate::{Cursors, Next, Step};
use replies::Refusal;

// The order byte at a place, if the order has such a place.
#[tactic(auto, using(crate::proofs::Sounds::sound_tested))]
pub fn order_byte(sound: &Sound, place: usize) -> Option<u8>
    ensures { OrderOf sound.now.table.file.now place result }
{
    sound.order().get(place).copied()
}

// The next step of the handler that an order byte names.
pub fn named_step(sound: &Sound, cursors: Cursors, handler: u8) -> Step
    ensures { NamedNext sound.now.table.file.now cursors.at handler (next_is result.next) result.cursors.at }
{
    if sound.sizes.handlers <= handler as u32 {
        let refusal = Refusal::NoHandler;
        return Step {
            next: Next::Refused { handler, refusal },
            cursors,
        };
    }
    let k = handler as usize;
    let at = cursors.at[k];
    match in_front(sound.script(k), at, &checks::plain_table()) {
        Err(refusal) => Step {
            next: Next::Refused { handler, refusal },
            cursors,
        },
        Ok(Standing { code, value, long }) => {
            let mut after = cursors;
            after.at[k] = at + long;
            Step {
                next: Next::Taken {
                    handler,
                    code,
                    value,
                },
                cursors: after,
            }
        }
    }
}
