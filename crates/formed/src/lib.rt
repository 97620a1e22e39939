// Whether words are a register. The bits of all numbers are laid over each other and looked at once, so that a row needs no early exit.
// Internal: called by our crates alone, which show what each function requires.
#![tactic(auto)]

ghost use Rattle.std.specs.Prelude.{◌≡◌, ◌↔◌, ℕ, ◌≤◌, ◌<◌, length, IsTrue};
ghost use Rattle.limits.specs.Limits.{most_cells, most_handlers, most_number};
ghost use Rattle.layout.specs.Places.{body_long, handler_long, cell_part, handler_part, number_in};
ghost use Rattle.layout.specs.WellFormed.{is_good_body, is_well_formed};
ghost use Rattle.formed.specs.Seen.{Fit, SpanFits, GoodFront, BlocksSeen};

// Bits with the words of two tables, from a place to another, laid over them: at most 65,535 exactly where the bits and all those
// words are. Two tables make half as many turns as one; one place for both is kept since two slices zipped cost a small register's test
// an eighth more.
fn span_bits(bits: u32, first: &[u32], second: &[u32], from: usize, to: usize) -> u32
    requires { (from ≤ to) × (to ≤ length first.now) × (to ≤ length second.now) }
    ensures { (result ≤ most_number) ↔ ((bits ≤ most_number) × SpanFits first.now second.now from to) }
{
    let mut over = bits;
    for y in from..to {
        over = over | first[y] | second[y];
    }
    over
}

// Bits with the numbers of all cells laid over them. The cells of the second half are looked at beside those of the first; of an odd
// number of cells, the one in the middle is in both.
fn cells_bits(bits: u32, body: &[u32], m: usize) -> u32
    requires { (m ≤ most_cells) × (body_long m 0 ≤ length body.now) }
    ensures { (result ≤ most_number) ↔ ((bits ≤ most_number) × ((c : ℕ) → c < m → Fit m (number_in (cell_part m body.now c)))) }
{
    let long = places::cell_at(m, 0).end;
    let ahead = places::cell_at(m, m / 2).start;
    let beside = &body[ahead..];
    let mut over = bits;
    let mut at = 0;
    for c in 0..(m + 1) / 2 {
        let next = at + long;
        over = span_bits(over, body, beside, at + places::NUMBERS, next);
        at = next;
    }
    over
}

// Whether all is well in front of a block's numbers: its phase is not above the last one, and its two sets have no cell that is not there.
#[tactic(auto, using(crate::proofs::Parts::front_good))]
fn good_front(block: &[u32], m: usize, last: u32) -> bool
    requires { (length block.now ≡ handler_long m) × (m ≤ most_cells) }
    ensures { IsTrue result ↔ GoodFront last m block.now }
{
    let sets = block[places::READ_SET] | block[places::WRITTEN_SET];
    block[places::PHASE] <= last && (sets as u64) >> m == 0
}

// The bits of the numbers of all handlers; nothing where the front of a block is not good. A handler's numbers are looked at beside those
// of its transaction, and the front behind them: with a way out in front of them the largest register's test costs a tenth more.
fn blocks_bits(body: &[u32], m: usize, n: usize, last: u32) -> Option<u32>
    requires { (m ≤ most_cells) × (n ≤ most_handlers) × (body_long m n ≤ length body.now) }
    ensures { BlocksSeen last m n body.now result }
{
    let first = places::block_at(m, 0);
    let behind = places::transaction_numbers(m);
    let ahead = behind - places::HANDLER_NUMBERS;
    let blocks = &body[first.start..places::body_words(m, n)];
    let mut bits = 0;
    for block in blocks.chunks_exact(first.end - first.start) {
        bits = span_bits(
            bits,
            block,
            &block[ahead..],
            places::HANDLER_NUMBERS,
            behind,
        );
        if !good_front(block, m, last) {
            return None;
        }
    }
    Some(bits)
}

// Whether a body of m cells and n handlers is good, with no phase above the last one.
pub fn good_body(body: &[u32], m: usize, n: usize, last: u32) -> bool
    requires { (m ≤ most_cells) × (n ≤ most_handlers) }
    ensures { result ≡ is_good_body last m n body.now }
{
    if body.len() < places::body_words(m, n) {
        return false;
    }
    match blocks_bits(body, m, n, last) {
        Some(bits) => cells_bits(bits, body, m) <= limits::MOST_NUMBER,
        None => false,
    }
}

// Whether the words are a well-formed register.
pub fn well_formed(words: &[u32]) -> bool
    ensures { result ≡ is_well_formed words.now }
{
    if words.len() < limits::FRONT {
        return false;
    }
    let first = words[places::CELLS];
    let second = words[places::HANDLERS];
    if !limits::in_range(first, second) {
        return false;
    }
    let m = first as usize;
    let n = second as usize;
    good_body(&words[limits::FRONT..], m, n, 1)
}
