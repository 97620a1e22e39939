// What the judge asks of its words: the writer of a cell's present version, by which cell a first read is torn, which version read is
// stale, and what cells and copies show. All of it is told by the commits and the deeds that the words say.
// Internal: called by our crates alone, which show what each function requires.
#![tactic(auto)]

ghost use Rattle.std.specs.Prelude.{◌≡◌, ◌&&◌, ◌||◌, ℕ, ◌≤◌, ◌<◌, ltb};
ghost use Rattle.rules.specs.steps.Tables.{lowest};
ghost use Rattle.rules.specs.history.History.{has_read, has_written, writer, every_commit};
ghost use Rattle.rules.specs.history.Past as Past;
ghost use Rattle.rules.specs.history.Replay.{replay};
ghost use Rattle.rules.specs.demand.Judge.{version_count, copied, stale};
ghost use Rattle.replies.specs.Meaning.{content_is};
ghost use Rattle.limits.specs.Limits.{most_cells};
ghost use Rattle.ledger.specs.Entries.{most_commits, commit_row, entry_in};
ghost use Rattle.ledger.specs.Histories.{deeds_of, commits_in};
ghost use Rattle.past.specs.Marks.{marked};
ghost use Rattle.words.specs.Sets.{found_is};

use past::{History, Marks, Row};

// A version of a cell: the place of the commit that wrote it, 0 for the opening's, and its number among the cell's versions.
#[derive(Clone, Copy, Debug, PartialEq, Eq)]
pub struct Version {
    pub writer: usize,
    pub number: u32,
}

// Whether a row's transaction has read or written the cell x.
pub fn has_copy(row: Row<'_>, x: usize) -> bool
    requires { x < most_cells }
    ensures { (m : ℕ) → x < m → let deeds = deeds_of (entry_in row.entry.words.now row.entry.index) m in
        result ≡ (has_read deeds x || has_written deeds x) }
{
    row.source(x) != None || row.wrote(x)
}

// The place of the commit that wrote the cell's present version; 0 for the opening's.
pub fn writer_of(history: History<'_>, x: usize) -> usize
    requires { x < most_cells }
    ensures writer { (m : ℕ) → x < m → result ≡ writer (commits_in m history.entry.words.now history.entry.count) x }
    ensures within { result ≤ history.entry.count }
{
    (1..history.count + 1)
        .rfind(|&place| history.commit(place).wrote(x))
        .unwrap_or(0)
}

// The present version of the cell x: its writer, and its number, which is how many versions the commits wrote.
#[tactic(auto, using(crate::proofs::Present::counted_none, crate::proofs::Present::counted_more, crate::proofs::Present::counted_kept))]
pub fn present_version(history: History<'_>, x: usize) -> Version
    requires { x < most_cells }
    ensures version { (m : ℕ) → x < m → let commits = commits_in m history.entry.words.now history.entry.count in
        (result.writer ≡ writer commits x) × (result.number ≡ version_count commits x) }
    ensures within { result.writer ≤ history.entry.count }
{
    let mut number = 0;
    for place in 1..history.count + 1 {
        if history.commit(place).wrote(x) {
            number += 1;
        }
    }
    Version {
        writer: writer_of(history, x),
        number,
    }
}

// What the cell's present version shows.
#[tactic(auto, using(crate::proofs::Present::present_nothing, crate::proofs::Present::present_copy))]
pub fn present_content(history: History<'_>, x: usize) -> Option<u32>
    requires { x < most_cells }
    ensures { (m : ℕ) → x < m
        → content_is result ≡ replay (commits_in m history.entry.words.now history.entry.count) every_commit x }
{
    match writer_of(history, x) {
        0 => None,
        place => Some(history.commit(place).copy(x)),
    }
}

// What the copy shows that a row's transaction has of the cell x: what it wrote, or else the version that it read, if any.
#[tactic(auto, using(ledger::proofs::Deeds::shown_written, ledger::proofs::Deeds::shown_opening, crate::proofs::Rows::shown_source))]
pub fn copy_content(row: Row<'_>, x: usize) -> Option<u32>
    requires { x < most_cells }
    ensures { (m : ℕ) → x < m → content_is result ≡ copied (deeds_of (entry_in row.entry.words.now row.entry.index) m) x }
{
    if row.wrote(x) {
        return Some(row.copy(x));
    }
    match row.source(x) {
        Some(place) if 0 < place => Some(row.copy(x)),
        _ => None,
    }
}

// Whether the commit at a place is marked, and wrote a later version of the cell y than the source did.
fn is_later(history: History<'_>, y: usize, source: usize, place: usize, marks: Marks) -> bool
    requires { (y < most_cells) × (1 ≤ place) × (place ≤ most_commits) }
    ensures { result ≡ (marked marks.0 place && ((entry_in history.entry.words.now (commit_row place)).written y && ltb source place)) }
{
    source < place && marks.has(place) && history.commit(place).wrote(y)
}

// Whether a marked commit wrote a later version of the cell y than the source did.
fn has_later(history: History<'_>, y: usize, source: usize, marks: Marks) -> bool
    requires { y < most_cells }
    ensures { (m : ℕ) → y < m
        → result ≡ Past.later (commits_in m history.entry.words.now history.entry.count) (marked marks.0) y source }
{
    (1..history.count + 1).any(|place| is_later(history, y, source, place, marks))
}

// Whether a row's transaction read the cell y, and a marked commit wrote a later version of it than the one read.
#[tactic(auto, using(crate::proofs::Rows::outdated_source, crate::proofs::Rows::outdated_none))]
fn is_outdated(history: History<'_>, row: Row<'_>, y: usize, marks: Marks) -> bool
    requires { y < most_cells }
    ensures { (m : ℕ) → y < m → let commits = commits_in m history.entry.words.now history.entry.count in
        result ≡ Past.outdated commits (marked marks.0) (deeds_of (entry_in row.entry.words.now row.entry.index) m) y }
{
    match row.source(y) {
        Some(source) => has_later(history, y, source, marks),
        None => false,
    }
}

// The lowest cell of which the commit at a place, or a commit in its causal past, wrote a later version than the one that a row's
// transaction read.
pub fn torn_cell(history: History<'_>, m: usize, row: Row<'_>, place: usize) -> Option<u8>
    requires { (m ≤ most_cells) × (place ≤ history.count) }
    ensures { let commits = commits_in m history.entry.words.now history.entry.count in
        found_is result ≡ Past.tears_at m commits (deeds_of (entry_in row.entry.words.now row.entry.index) m) place }
{
    let marks = past::past_of_version(history, m, place, Marks::NONE);
    (0..m)
        .find(|&y| is_outdated(history, row, y, marks))
        .map(|y| y as u8)
}

// Whether a row's transaction read the cell y in another version than the present one.
#[tactic(auto, using(crate::proofs::Rows::stale_source, crate::proofs::Rows::stale_none))]
fn is_overtaken(history: History<'_>, row: Row<'_>, y: usize) -> bool
    requires { y < most_cells }
    ensures { (m : ℕ) → y < m → let commits = commits_in m history.entry.words.now history.entry.count in
        result ≡ stale commits (deeds_of (entry_in row.entry.words.now row.entry.index) m) y }
{
    match row.source(y) {
        Some(source) => source != writer_of(history, y),
        None => false,
    }
}

// The lowest cell that a row's transaction read in another version than the present one.
pub fn overtaken_cell(history: History<'_>, m: usize, row: Row<'_>) -> Option<u8>
    requires { m ≤ most_cells }
    ensures { let commits = commits_in m history.entry.words.now history.entry.count in
        found_is result ≡ lowest m (stale commits (deeds_of (entry_in row.entry.words.now row.entry.index) m)) }
{
    (0..m)
        .find(|&z| is_overtaken(history, row, z))
        .map(|z| z as u8)
}
