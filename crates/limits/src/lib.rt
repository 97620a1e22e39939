// The numbers of the rules (docs/RULES.md) and of our layouts, each said once, and the range of a register's cells and handlers.
// PUBLIC: nothing here has a `requires`.
#![tactic(auto)]

ghost use Rattle.limits.specs.Ranges.{RangePromise};

// The most cells that a register has.
pub const MOST_CELLS: u32 = 32;

// The most handlers that a register has.
pub const MOST_HANDLERS: u32 = 16;

// The most that a dependency number can be.
pub const MOST_NUMBER: u32 = 65535;

// The least that no dependency number can be.
pub const NO_NUMBER: u32 = MOST_NUMBER + 1;

// The most commits that the judge notes.
pub const MOST_COMMITS: u32 = 64;

// The most bytes that a schedule file has.
pub const MOST_FILE_BYTES: usize = 65535;

// The longest line of an order place, in bytes.
pub const LONGEST_LINE: usize = 34;

// The most bytes that are printed of a file: a line for each of its bytes, and the header and each cell as two lines more.
pub const MOST_PRINTED: usize = (MOST_FILE_BYTES + 66) * LONGEST_LINE;

// The words in front of a register's body: m and n.
pub const FRONT: usize = 2;

// The words of the largest register.
pub const REGISTER_WORDS: usize = 2642;

// A row with a word for each cell that there can be.
pub const ROW: usize = MOST_CELLS as usize;

// A table with an entry for each handler that there can be.
pub const HANDLER_TABLE: usize = MOST_HANDLERS as usize;

// As many commits as the judge notes.
pub const COMMIT_TABLE: usize = MOST_COMMITS as usize;

// A row of the judge's ledger: its head, its written cells as bits, and a source and a copy for each cell.
pub const LEDGER_ROW: usize = 2 + 2 * ROW;

// The rows of a ledger: its head, one for each handler, and one for each commit.
pub const LEDGER_ROWS: usize = 1 + HANDLER_TABLE + COMMIT_TABLE;

// The words of a ledger.
pub const LEDGER_WORDS: usize = LEDGER_ROWS * LEDGER_ROW;

// The words of a ledger behind m and n.
pub const LEDGER_BEHIND: usize = LEDGER_WORDS - FRONT;

// The counts of a handler in a duty sheet.
pub const SHEET_COLUMNS: usize = 6;

// The words of a duty sheet: a row of counts for each handler that there can be.
pub const SHEET_WORDS: usize = HANDLER_TABLE * SHEET_COLUMNS;

// A count above which a duty sheet takes no file: no file has so many lines that a count up to here could wrap.
pub const SHEET_FULL: u32 = 4_294_000_000u32;

// The words of a step in a row: handler, code and value.
pub const STEP_WIDTH: usize = 3;

// The words of a step's report: handler, code, kind of reply, its value or number, and the cell that it names.
pub const REPORT_WIDTH: usize = 5;

// Whether m is 1 to 32 and n is 1 to 16.
#[tactic(auto, using(crate::proofs::Ranges::out_of_range))]
pub fn in_range(m: u32, n: u32) -> bool
    ensures { RangePromise m n result }
{
    if m < 1 {
        return false;
    }
    if m > MOST_CELLS {
        return false;
    }
    if n < 1 {
        return false;
    }
    n <= MOST_HANDLERS
}
