// Where a duty sheet holds what: a row for each handler, and in a row each count.
ghost use Rattle.std.specs.Prelude.{◌≡◌, ◌*◌, ◌<◌};
ghost use Rattle.limits.specs.Limits.{most_handlers, sheet_columns};

// In a row: the transactions begun.
pub const BEGUN: usize = 0;

// In a row: those committed.
pub const COMMITTED: usize = 1;

// In a row: those torn.
pub const TORN: usize = 2;

// In a row: those overtaken.
pub const OVERTAKEN: usize = 3;

// In a row: those spent.
pub const SPENT: usize = 4;

// In a row: those given up.
pub const GAVE_UP: usize = 5;

// Where the row of a handler begins.
pub fn sheet_row(handler: usize) -> usize
    requires { handler < most_handlers }
    ensures { result ≡ handler * sheet_columns }
{
    handler * limits::SHEET_COLUMNS
}
