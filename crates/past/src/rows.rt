// A ledger as it is read: a row, which says what one transaction did, and the first so many commits. What each reading requires of the
// words is said by these types.
ghost use Rattle.std.specs.Prelude.{◌≡◌, ◌+◌, ◌≤◌, ◌<◌, length, MatchOption};
ghost use Rattle.limits.specs.Limits.{most_cells, ledger_rows};
ghost use Rattle.ledger.specs.Entries.{ledger_long, most_commits, commit_row, entry_in};

// A row of a ledger.
#[derive(Clone, Copy)]
pub struct Row<'a> {
    pub words: &'a [u32],
    pub index: usize,
    pub ghost long: { ledger_long ≤ length words.now },
    pub ghost inside: { index < ledger_rows },
}

// The first so many commits of a ledger.
#[derive(Clone, Copy)]
pub struct History<'a> {
    pub words: &'a [u32],
    pub count: usize,
    pub ghost long: { ledger_long ≤ length words.now },
    pub ghost noted: { count ≤ most_commits },
}

#[tactic(auto, unfolding(ledger::specs::Entries::entry_in))]
impl<'a> Row<'a> {
    // The head of a row: a commit's is its handler.
    pub fn head(self) -> u32
        ensures { result ≡ (entry_in self.entry.words.now self.entry.index).head }
    {
        self.words[places::row_at(self.index)]
    }

    // Whether the row's transaction wrote the cell c.
    pub fn wrote(self, c: usize) -> bool
        requires { c < most_cells }
        ensures { result ≡ (entry_in self.entry.words.now self.entry.index).written c }
    {
        words::has(self.words[places::written_at(self.index)], c)
    }

    // The place of the commit whose version of the cell c the row's transaction read, 0 for the opening's; none where it read none.
    pub fn source(self, c: usize) -> Option<usize>
        requires { c < most_cells }
        ensures { let noted = (entry_in self.entry.words.now self.entry.index).sources c in
            MatchOption result (noted ≡ 0) (λ place. noted ≡ place + 1) }
    {
        // It is noted as 1 more than its place.
        (self.words[places::source_at(self.index, c)] as usize).checked_sub(1)
    }

    // The row's copy of the cell c.
    pub fn copy(self, c: usize) -> u32
        requires { c < most_cells }
        ensures { result ≡ (entry_in self.entry.words.now self.entry.index).copies c }
    {
        self.words[places::copy_at(self.index, c)]
    }
}

impl<'a> History<'a> {
    // The row of the commit at a place.
    pub fn commit(self, place: usize) -> Row<'a>
        requires { place ≤ most_commits }
        ensures { entry_in result.words.now result.index ≡ entry_in self.entry.words.now (commit_row place) }
    {
        Row {
            words: self.words,
            index: places::commit_row(place),
        }
    }

    // The first so many of its commits.
    pub fn first(self, count: usize) -> History<'a>
        requires { count ≤ most_commits }
        ensures { (result.words.now ≡ self.entry.words.now) × (result.count ≡ count) }
    {
        History {
            words: self.words,
            count,
        }
    }
}
