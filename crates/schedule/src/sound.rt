// A sound file: the test of the whole, and what a sound file has: its sizes, a script for each handler, and the order. Internal.
ghost use Rattle.std.specs.Prelude.{◌≡◌, ◌+◌, ◌<◌, MatchOption, MatchResult};
ghost use Rattle.rules.specs.steps.Replies.{bad_file};
ghost use Rattle.replies.specs.Meaning.{refusal_is};
ghost use Rattle.schedule.specs.Sound.{table_start, handlers_in, cells_in, script_in, order_in, SoundFile};
ghost use Rattle.schedule.specs.Admitting.{all_whole};

use crate::Sizes;
use crate::scripts::whole;
use crate::table::Table;
use replies::Refusal;

// A sound file: how many handlers and cells it has, and its table of contents.
#[derive(Clone, Copy)]
pub struct Sound<'a> {
    pub sizes: Sizes,
    pub table: Table<'a>,
    ghost sound: { SoundFile table.file.now },
    ghost handlers: { sizes.handlers ≡ handlers_in table.file.now },
    ghost cells: { sizes.cells ≡ cells_in table.file.now },
    ghost start: { table.start ≡ table_start },
    ghost entries: { table.entries ≡ sizes.handlers + 1 },
}

impl<'a> Sound<'a> {
    // What a file has, if it is sound.
    fn of(file: &'a [u8]) -> Option<Sound<'a>>
        ensures { MatchOption result (¬ SoundFile file.now) (λ sound. sound.table.file.now ≡ file.now) }
    {
        if file.len() > limits::MOST_FILE_BYTES {
            return None;
        }
        let &[n, m, ..] = file else {
            return None;
        };
        let sizes = Sizes {
            handlers: n as u32,
            cells: m as u32,
        };
        if !limits::in_range(sizes.cells, sizes.handlers) {
            return None;
        }
        let table = Table::of(file, 2, n as usize + 1)?;
        Some(Sound { sizes, table })
    }

    // The script of a handler.
    pub fn script(&self, handler: usize) -> &'a [u8]
        requires { handler < self.now.sizes.handlers }
        ensures { result.now ≡ script_in self.now.table.file.now handler }
    {
        self.table.body(handler)
    }

    // The order.
    pub fn order(&self) -> &'a [u8]
        ensures { result.now ≡ order_in self.now.table.file.now }
    {
        self.table.body(self.sizes.handlers as usize)
    }

    // Whether each script is whole.
    pub fn all_whole(&self) -> bool
        ensures { result ≡ all_whole self.now.table.file.now }
    {
        let codes = checks::plain_table();
        (0..self.sizes.handlers as usize).all(|handler| whole(self.script(handler), &codes))
    }
}

// What a file has, if it is sound, and else 30.
pub fn sound_file(file: &[u8]) -> Result<Sound<'_>, Refusal>
    ensures { MatchResult result (λ sound. sound.table.file.now ≡ file.now)
        (λ refusal. (¬ SoundFile file.now) × (refusal_is refusal ≡ bad_file)) }
{
    Sound::of(file).ok_or(Refusal::BadFile)
}
