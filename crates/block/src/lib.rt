// What a step does to one handler's block, a lent part of the register's words: begin, write, what joins a transaction, and its end.
// Internal: called by our crates alone, which show what each function requires.
#![tactic(auto)]

ghost use Rattle.std.specs.Prelude.{◌≡◌, ◌<◌, ◌≤◌, max};
ghost use Rattle.rules.specs.steps.Register.{idle};
ghost use Rattle.rules.specs.steps.Figure.{begun, wrote};
ghost use Rattle.layout.specs.Places.{transaction_from, transaction_number_in};
ghost use Rattle.layout.specs.View.{word_setting, view_handler, pour_handler};
ghost use Rattle.words.specs.Rows.{Changed};
ghost use Rattle.block.specs.Blocks.{Block, OpenBlock, row_table, joined_with};

// Phase 1, both sets empty, the transaction's numbers become the handler's, copies 0.
pub fn begin(block: &mut [u32], m: usize)
    requires { Block m block.old }
    ensures { block.new ≡ pour_handler m (begun (word_setting m) (view_handler m block.old)) }
{
    block[places::PHASE] = 1;
    block[places::READ_SET] = 0;
    block[places::WRITTEN_SET] = 0;
    let transaction = places::transaction_numbers(m);
    let copies = places::copies(m);
    words::copy(block, places::HANDLER_NUMBERS, transaction, m);
    words::clear(block, copies, m);
}

// The copy becomes the value, and the cell joins the written set.
pub fn write(block: &mut [u32], m: usize, x: usize, value: u32)
    requires { OpenBlock m block.old × (x < m) }
    ensures { block.new ≡ pour_handler m (wrote (view_handler m block.old) x value) }
{
    block[places::copies(m) + x] = value;
    let written = block[places::WRITTEN_SET];
    block[places::WRITTEN_SET] = words::with_cell(written, x);
}

// Each number of the transaction is raised to that of the row, where that one is larger.
fn raise(block: &mut [u32], m: usize, numbers: &[u32; limits::ROW])
    requires { Block m block.old }
    ensures { Changed (transaction_from m) m (λ y. max (transaction_number_in m block.old y) (row_table numbers.now y))
        block.old block.new }
{
    let transaction = places::transaction_numbers(m);
    for (y, number) in numbers[..m].iter().enumerate() {
        block[transaction + y] = block[transaction + y].max(*number);
    }
}

// All numbers of the transaction are raised to a cell's, cell x joins the read set at its own, and the copy becomes its value.
pub fn join(block: &mut [u32], m: usize, x: usize, value: u32, numbers: &[u32; limits::ROW])
    requires { OpenBlock m block.old × (x < m) }
    ensures { block.new ≡ pour_handler m (joined_with (view_handler m block.old) x value (row_table numbers.now)) }
{
    let transaction = places::transaction_numbers(m);
    let copies = places::copies(m);
    let read = block[places::READ_SET];
    raise(block, m, numbers);
    block[transaction + x] = numbers[x];
    block[places::READ_SET] = words::with_cell(read, x);
    block[copies + x] = value;
}

// An abort: the handler keeps its numbers, and all else is 0.
pub fn rest(block: &mut [u32], m: usize)
    requires { Block m block.old }
    ensures { block.new ≡ pour_handler m (idle (word_setting m) (view_handler m block.old).numbers) }
{
    block[places::PHASE] = 0;
    block[places::READ_SET] = 0;
    block[places::WRITTEN_SET] = 0;
    let transaction = places::transaction_numbers(m);
    words::clear(block, transaction, 2 * m);
}

// A commit: the handler's numbers become the transaction's, and all else is 0.
pub fn settle(block: &mut [u32], m: usize)
    requires { Block m block.old }
    ensures { block.new ≡ pour_handler m (idle (word_setting m) (view_handler m block.old).transaction) }
{
    let transaction = places::transaction_numbers(m);
    words::copy(block, transaction, places::HANDLER_NUMBERS, m);
    rest(block, m);
}
