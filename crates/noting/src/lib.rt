// What the judge notes in its words: a row begun or ended, a read, a write, a commit.
// Internal: called by our crates alone, which show what each function requires.
#![tactic(auto)]

ghost use Rattle.std.specs.Prelude.{◌≡◌, ◌+◌, ◌*◌, ◌^◌, ◌≤◌, ◌<◌, length, get_or};
ghost use Rattle.limits.specs.Limits.{most_cells, most_handlers, most_commits, ledger_rows};
ghost use Rattle.layout.specs.Places.{handlers_of, written_at, handler_row, commit_row};
ghost use Rattle.ledger.specs.Entries.{ledger_long, Ledger, commits_noted, entry_in, with_entry};
ghost use Rattle.ledger.specs.Noting.{empty_entry, read_entry, written_entry, committed_entry, note_commit_row};

// Leaves nothing in a row but its head.
#[tactic(auto, using(crate::proofs::Placed::emptied_at))]
pub fn empty_row(words: &mut [u32], row: usize, head: u32)
    requires { (row < ledger_rows) × (ledger_long ≤ length words.old) }
    ensures { words.new ≡ with_entry words.old row (empty_entry head) }
{
    let start = places::row_at(row);
    words::clear(words, start, limits::LEDGER_ROW);
    words[start] = head;
}

// Notes a read of the cell x in a row: the place of the commit that wrote the version read, and its value.
#[tactic(auto, using(crate::proofs::Placed::read_at))]
pub fn note_read(words: &mut [u32], row: usize, x: usize, place: usize, value: u32)
    requires row_lt_ledger_rows { (row < ledger_rows) × (ledger_long ≤ length words.old) × (x < most_cells) × (place ≤ most_commits) }
    requires row_bound { get_or words.old (written_at row) 0 < 2 ^ 32 }
    ensures { words.new ≡ with_entry words.old row (read_entry (entry_in words.old row) x place value) }
{
    let source = places::source_at(row, x);
    let copy = places::copy_at(row, x);
    words[source] = (place + 1) as u32;
    words[copy] = value;
}

// Notes a write of the cell x in a row.
#[tactic(auto, using(crate::proofs::Placed::write_at))]
pub fn note_write(words: &mut [u32], row: usize, x: usize, value: u32)
    requires { (row < ledger_rows) × (ledger_long ≤ length words.old) × (x < most_cells) }
    ensures { words.new ≡ with_entry words.old row (written_entry (entry_in words.old row) x value) }
{
    let written = places::written_at(row);
    let copy = places::copy_at(row, x);
    words[written] = words::with_cell(words[written], x);
    words[copy] = value;
}

// Copies the row of handler i to that of a new commit.
#[tactic(auto, using(crate::proofs::Placed::copied_at))]
fn copy_row(words: &mut [u32], i: usize, place: usize)
    requires { (i < most_handlers) × (1 ≤ place) × (place ≤ most_commits) × (ledger_long ≤ length words.old) }
    ensures { words.new ≡ with_entry words.old (commit_row place) (committed_entry i (entry_in words.old (handler_row i))) }
{
    let from = places::row_at(places::handler_row(i));
    let to = places::row_at(places::commit_row(place));
    words::copy(words, from, to, limits::LEDGER_ROW);
    words[to] = i as u32;
}

// Notes a commit of handler i.
#[tactic(auto, using(crate::proofs::Stores::commit_stored, crate::proofs::Stores::with_length))]
pub fn note_commit(words: &mut [u32], i: usize)
    requires { Ledger words.old × (i < handlers_of words.old) × (commits_noted words.old < most_commits) }
    ensures { words.new ≡ note_commit_row words.old i }
{
    let place = words[places::COMMITS_NOTED] as usize + 1;
    copy_row(words, i, place);
    empty_row(words, places::handler_row(i), 0);
    words[places::COMMITS_NOTED] = place as u32;
}
