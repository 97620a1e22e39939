// A table of contents, wherever it starts and however many entries it has, and what is read off it. Internal.
ghost use Rattle.std.specs.Prelude.{◌≡◌, ◌+◌, ◌<◌, ◌≤◌, length, MatchOption};
ghost use Rattle.limits.specs.Limits.{most_file_bytes};
ghost use Rattle.schedule.specs.Bytes.{short_at, long_at, entry_part, entry_body};
ghost use Rattle.schedule.specs.Sound.{SoundTable};

use crate::Part;

// A sound table of contents: the file that it lies in, where it starts, and how many entries it has.
#[derive(Clone, Copy)]
pub struct Table<'a> {
    pub file: &'a [u8],
    pub start: usize,
    pub entries: usize,
    ghost sound: { SoundTable file.now start entries },
}

impl<'a> Table<'a> {
    // The table that starts there and has so many entries, if it is sound.
    pub fn of(file: &'a [u8], start: usize, entries: usize) -> Option<Table<'a>>
        requires { (start ≤ most_file_bytes) × (entries ≤ most_file_bytes) }
        ensures { MatchOption result (¬ SoundTable file.now start entries)
            (λ table. (table.file.now ≡ file.now) × (table.start ≡ start) × (table.entries ≡ entries)) }
    {
        let bodies = start + 4 * entries;
        if file.len() < bodies {
            return None;
        }
        let mut due = bodies;
        for entry in file[start..bodies].chunks_exact(4) {
            let offset = short_at(entry, 0) as usize;
            if offset != due {
                return None;
            }
            due = offset + short_at(entry, 2) as usize;
        }
        if due != file.len() {
            return None;
        }
        Some(Table {
            file,
            start,
            entries,
        })
    }

    // The entry of a body: where it lies.
    pub fn entry(&self, k: usize) -> Part
        requires { k < self.now.entries }
        ensures { result ≡ entry_part self.now.file.now self.now.start k }
    {
        let at = self.start + 4 * k;
        let offset = short_at(self.file, at) as usize;
        let length = short_at(self.file, at + 2) as usize;
        Part { offset, length }
    }

    // A body, as the very part of the file.
    #[tactic(auto, using(crate::proofs::Sounds::body_inside))]
    pub fn body(&self, k: usize) -> &'a [u8]
        requires { k < self.now.entries }
        ensures { result.now ≡ entry_body self.now.file.now self.now.start k }
    {
        self.entry(k).bytes(self.file)
    }
}

// The 16-bit number at a place.
#[tactic(auto, unfolding(crate::specs::Bytes::short_at))]
fn short_at(bytes: &[u8], place: usize) -> u16
    requires { place + 1 < length bytes.now }
    ensures { result ≡ short_at bytes.now place }
{
    u16::from_be_bytes([bytes[place], bytes[place + 1]])
}

// The 32-bit number at a place.
#[tactic(auto, unfolding(crate::specs::Bytes::long_at, crate::specs::Bytes::short_at))]
pub fn long_at(bytes: &[u8], place: usize) -> u32
    requires { place + 3 < length bytes.now }
    ensures { result ≡ long_at bytes.now place }
{
    u32::from_be_bytes([
        bytes[place],
        bytes[place + 1],
        bytes[place + 2],
        bytes[place + 3],
    ])
}
