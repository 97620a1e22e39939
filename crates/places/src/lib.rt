// Where things lie: the one crate that knows an offset. A place is a constant where it does not depend on the numbers of cells and
// handlers, and else a function of them.
// Internal: called by our crates alone, which show what each function requires.
#![tactic(auto)]

mod body;
mod ledger;
mod row;
mod sheet;

pub use body::{
    CELLS, HANDLER_NUMBERS, HANDLERS, NUMBERS, PHASE, READ_SET, VALUE, WRITTEN_SET, block_at,
    body_words, cell_at, copies, own_number, transaction_numbers,
};
pub use ledger::{COMMITS_NOTED, commit_row, copy_at, handler_row, row_at, source_at, written_at};
pub use row::{
    REPORT_CELL, REPORT_CODE, REPORT_DETAIL, REPORT_HANDLER, REPORT_KIND, STEP_CODE, STEP_HANDLER,
    STEP_VALUE,
};
pub use sheet::{BEGUN, COMMITTED, GAVE_UP, OVERTAKEN, SPENT, TORN, sheet_row};
