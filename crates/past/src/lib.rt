// A transaction's causal past over the judge's words, as marks of the commits in it. A commit already marked is not asked again.
// Internal: called by our crates alone, which show what each function requires.
#![tactic(auto)]

mod rows;

ghost use Rattle.std.specs.Prelude.{◌≡◌, ℕ, ◌≤◌, ◌<◌};
ghost use Rattle.rules.specs.history.Past.{last_of};
ghost use Rattle.limits.specs.Limits.{most_cells};
ghost use Rattle.ledger.specs.Entries.{most_commits, entry_in};
ghost use Rattle.ledger.specs.Histories.{commits_in};
ghost use Rattle.past.specs.Marks.{past_of_transaction, past_of_version, source_place, marked, only, Adds, Closed};

pub use rows::{History, Row};

// A set of commits: the bit k for the commit at place k + 1.
#[derive(Clone, Copy, Debug, PartialEq, Eq)]
pub struct Marks(pub u64);

#[tactic(auto, using(crate::proofs::Marking::marked_at, crate::proofs::Marking::adds_one), unfolding(layout::specs::Bits::has_bit))]
impl Marks {
    // The marks of no commit.
    pub const NONE: Marks = Marks(0);

    // Whether the commit at a place is marked.
    pub fn has(self, place: usize) -> bool
        requires { (1 ≤ place) × (place ≤ most_commits) }
        ensures { result ≡ marked self.0 place }
    {
        (self.0 >> (place - 1)) % 2 == 1
    }

    // The marks, with the commit at a place.
    fn with(self, place: usize) -> Marks
        requires { (1 ≤ place) × (place ≤ most_commits) }
        ensures { Adds (only place) self.0 result.0 }
    {
        Marks(self.0 | 1 << (place - 1))
    }
}

// The place of the handler's last commit; 0 if it has none.
fn last_own(history: History<'_>, handler: u32) -> usize
    ensures { (m : ℕ) → result ≡ last_of (commits_in m history.entry.words.now history.entry.count) handler }
{
    (1..history.count + 1)
        .rfind(|&place| history.commit(place).head() == handler)
        .unwrap_or(0)
}

// The place of the commit, among the first so many, that a row's transaction read the cell c from; 0 if there is none.
#[tactic(auto, unfolding(crate::specs::Marks::source_place))]
fn source_of(row: Row<'_>, c: usize, count: usize) -> usize
    requires { c < most_cells }
    ensures { result ≡ source_place ((entry_in row.entry.words.now row.entry.index).sources c) count }
{
    match row.source(c) {
        Some(place) if place <= count => place,
        _ => 0,
    }
}

// A transaction's past is asked of its handler's earlier commits, of which the last has the others in its past, and of the versions
// that it read.
#[cycle(past_of_transaction_past_of_version)]
pub fn past_of_transaction(
    history: History<'_>,
    m: usize,
    handler: u32,
    row: Row<'_>,
    marks: Marks,
) -> Marks
    requires cells { m ≤ most_cells }
    requires closed { Closed m history.words.now (marked marks.0) }
    ensures { let entry = entry_in row.entry.words.now row.entry.index in
        Adds (past_of_transaction m history.entry.words.now history.entry.count handler entry) marks.0 result.0 }
{
    let own = last_own(history, handler);
    let mut seen = past_of_version(history, m, own, marks);
    for c in 0..m {
        seen = past_of_version(history, m, source_of(row, c, history.count), seen);
    }
    seen
}

// A version's past is asked of the commit that wrote it; the opening's version has none.
#[cycle(past_of_transaction_past_of_version)]
pub fn past_of_version(history: History<'_>, m: usize, place: usize, marks: Marks) -> Marks
    requires within_bounds { (m ≤ most_cells) × (place ≤ most_commits) }
    requires closed { Closed m history.words.now (marked marks.0) }
    ensures { Adds (past_of_version m history.entry.words.now place) marks.0 result.0 }
{
    if place == 0 || marks.has(place) {
        return marks;
    }
    let row = history.commit(place);
    let seen = past_of_transaction(history.first(place - 1), m, row.head(), row, marks);
    seen.with(place)
}
