// Where the judge's ledger holds what: its rows, and in a row the written cells, the sources and the copies.
ghost use Rattle.std.specs.Prelude.{◌≡◌, ◌≤◌, ◌<◌};
ghost use Rattle.limits.specs.Limits.{most_cells, most_handlers, most_commits, ledger_rows};
ghost use Rattle.layout.specs.Places.{handler_row, commit_row, row_start, written_at, source_at, copy_at};

// How many commits are noted.
pub const COMMITS_NOTED: usize = limits::FRONT;

// In a row: the first source.
const SOURCES: usize = 2;

// In a row: the first copy.
const COPIES: usize = SOURCES + limits::ROW;

// The row of handler i.
pub fn handler_row(i: usize) -> usize
    requires { i < most_handlers }
    ensures { result ≡ handler_row i }
{
    1 + i
}

// The row of the commit at a place; commits are counted from 1.
pub fn commit_row(place: usize) -> usize
    requires { place ≤ most_commits }
    ensures { result ≡ commit_row place }
{
    limits::HANDLER_TABLE + place
}

// Where a row begins: its head.
pub fn row_at(row: usize) -> usize
    requires { row < ledger_rows }
    ensures { result ≡ row_start row }
{
    row * limits::LEDGER_ROW
}

// Where a row has its written cells.
pub fn written_at(row: usize) -> usize
    requires { row < ledger_rows }
    ensures { result ≡ written_at row }
{
    row * limits::LEDGER_ROW + 1
}

// Where a row has its source of cell c.
pub fn source_at(row: usize, c: usize) -> usize
    requires { (row < ledger_rows) × (c < most_cells) }
    ensures { result ≡ source_at row c }
{
    row * limits::LEDGER_ROW + (SOURCES + c)
}

// Where a row has its copy of cell c.
pub fn copy_at(row: usize, c: usize) -> usize
    requires { (row < ledger_rows) × (c < most_cells) }
    ensures { result ≡ copy_at row c }
{
    row * limits::LEDGER_ROW + (COPIES + c)
}
