// Where cells and handlers lie in a body, and where a cell's words and a handler's block hold what.
ghost use Rattle.std.specs.Prelude.{◌≡◌, ◌≤◌, ◌<◌};
ghost use Rattle.limits.specs.Limits.{most_cells, most_handlers};
ghost use Rattle.layout.specs.Places.{body_long, cell_long, handler_long, cell_start, own_at, handler_start, transaction_from, copies_from};
ghost use Rattle.places.specs.Spans.{Spans};

use std::ops::Range;

// In front of the body: m.
pub const CELLS: usize = 0;

// In front of the body: n.
pub const HANDLERS: usize = 1;

// In a cell's words: its value.
pub const VALUE: usize = 0;

// In a cell's words: its first dependency number.
pub const NUMBERS: usize = 1;

// In a block: the handler's phase.
pub const PHASE: usize = 0;

// In a block: the transaction's read set.
pub const READ_SET: usize = 1;

// In a block: the transaction's written set.
pub const WRITTEN_SET: usize = 2;

// In a block: the first number of the handler.
pub const HANDLER_NUMBERS: usize = 3;

// In a block of m cells: the first number of the transaction.
pub fn transaction_numbers(m: usize) -> usize
    requires { m ≤ most_cells }
    ensures { result ≡ transaction_from m }
{
    HANDLER_NUMBERS + m
}

// In a block of m cells: the first local copy.
pub fn copies(m: usize) -> usize
    requires { m ≤ most_cells }
    ensures { result ≡ copies_from m }
{
    HANDLER_NUMBERS + 2 * m
}

// Where the words of cell c lie.
pub fn cell_at(m: usize, c: usize) -> Range<usize>
    requires { (m ≤ most_cells) × (c < most_cells) }
    ensures { Spans (cell_start m c) (cell_long m) result.start result.end }
{
    let long = NUMBERS + m;
    let start = c * long;
    start..start + long
}

// Where cell c's own number lies.
pub fn own_number(m: usize, c: usize) -> usize
    requires { (m ≤ most_cells) × (c < most_cells) }
    ensures { result ≡ own_at m c }
{
    c * (NUMBERS + m) + NUMBERS + c
}

// Where the block of handler i lies.
pub fn block_at(m: usize, i: usize) -> Range<usize>
    requires { (m ≤ most_cells) × (i < most_handlers) }
    ensures { Spans (handler_start m i) (handler_long m) result.start result.end }
{
    let long = HANDLER_NUMBERS + 3 * m;
    let start = m * (NUMBERS + m) + i * long;
    start..start + long
}

// The words of a body of m cells and n handlers: where the block of handler n would begin.
pub fn body_words(m: usize, n: usize) -> usize
    requires { (m ≤ most_cells) × (n ≤ most_handlers) }
    ensures { result ≡ body_long m n }
{
    m * (NUMBERS + m) + n * (HANDLER_NUMBERS + 3 * m)
}
