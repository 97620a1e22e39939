// Sets of cells in a word, what is found among cells, and rows of words: cleared, copied and copied out.
// Internal: called by our crates alone, which show what each function requires.
#![tactic(auto)]

ghost use Rattle.std.specs.Prelude.{◌≡◌, true, ◌⊎◌, ◌+◌, ◌≤◌, ◌<◌, length, get_or};
ghost use Rattle.std.specs.Iterator.{at_most};
ghost use Rattle.rules.specs.steps.Register.{zeros};
ghost use Rattle.limits.specs.Limits.{most_cells};
ghost use Rattle.layout.specs.Bits.{has_bit, with_bit};
ghost use Rattle.words.specs.Rows.{Changed, RowOf};
ghost use Rattle.words.specs.Sets.{Lowest, Without, TakesLowest};

// Whether cell c is in the set.
pub fn has(set: u32, c: usize) -> bool
    requires { c < most_cells }
    ensures { result ≡ has_bit set c }
{
    (set >> c) % 2 == 1
}

// The set with cell c.
pub fn with_cell(set: u32, c: usize) -> u32
    requires { c < most_cells }
    ensures { result ≡ with_bit set c }
{
    if has(set, c) { set } else { set + (1u32 << c) }
}

// The lowest cell of a set.
pub fn lowest(set: u32) -> usize
    requires { 0 < set }
    ensures { Lowest set result }
{
    u32::trailing_zeros(set) as usize
}

// The set without cell c, which is in it.
pub fn without(set: u32, c: usize) -> u32
    requires { (c < most_cells) × (has_bit set c ≡ true) }
    ensures { Without set c result }
{
    set - (1u32 << c)
}

// The cells of a set that are left, the lowest first.
#[derive(Clone, Drop)]
pub struct Cells {
    pub left: u32,
}

impl Cells {
    // All cells of a set.
    pub fn of(set: u32) -> Cells
        ensures { result.left ≡ set }
    {
        Cells { left: set }
    }
}

impl Iterator for Cells {
    type Item = usize;

    ghost next_gives = { TakesLowest };

    ghost remaining = { λ cells. at_most cells.left };

    // Takes the lowest cell that is left.
    fn next(&mut self) -> Option<usize> {
        if self.left == 0 {
            return None;
        }
        let cell = lowest(self.left);
        self.left = without(self.left, cell);
        Some(cell)
    }
}

// Clears so many words from a place on.
pub fn clear(words: &mut [u32], from: usize, count: usize)
    requires { from + count ≤ length words.old }
    ensures { Changed from count zeros words.old words.new }
{
    words[from..from + count].fill(0);
}

// Copies a row to a place where no word of it lies.
pub fn copy(words: &mut [u32], from: usize, to: usize, count: usize)
    requires { ((from + count ≤ to) ⊎ (to + count ≤ from)) × (from + count ≤ length words.old) × (to + count ≤ length words.old) }
    ensures { Changed to count (λ y. get_or words.old (from + y) 0) words.old words.new }
{
    words.copy_within(from..from + count, to);
}

// A row of a word a cell, copied out.
pub fn copy_out(words: &[u32], from: usize, count: usize) -> [u32; limits::ROW]
    requires { (from + count ≤ length words.now) × (count ≤ most_cells) }
    ensures { RowOf count (λ y. get_or words.now (from + y) 0) result }
{
    let mut row = [0u32; limits::ROW];
    row[..count].copy_from_slice(&words[from..from + count]);
    row
}
