// The tests of a first read and of a try, over a set of cells: only the cells of the set are looked at, the lowest first, and their
// numbers where they lie. m is there for the contracts where no place needs it.
// Internal: called by our crates alone, which show what each function requires.
#![tactic(auto)]

ghost use Rattle.std.specs.Prelude.{◌≡◌, true, ℕ, ◌+◌, ◌≤◌, length};
ghost use Rattle.rules.specs.steps.Tables.{lowest};
ghost use Rattle.layout.specs.Bits.{has_bit};
ghost use Rattle.words.specs.Sets.{found_is};
ghost use Rattle.searches.specs.Searches.{Among, lower, differs, filled, FirstOf};

use words::Cells;

// The lowest cell of a set that passes a test.
fn first_of<F: Fn(usize) -> bool>(set: u32, passes: F) -> Option<u8>
    requires { (y : ℕ) → has_bit set y ≡ true → F.pre passes y }
    ensures { FirstOf set (F.post passes) result }
{
    for y in Cells::of(set) {
        if passes(y) {
            return Some(y as u8);
        }
    }
    None
}

// The lowest cell of the set with a number in the row held that is below the one in the row of numbers.
#[tactic(auto, using(crate::proofs::Cells::torn_is))]
pub fn torn(body: &[u32], m: usize, set: u32, held: usize, numbers: usize) -> Option<u8>
    requires { Among m set body.now × (held + m ≤ length body.now) × (numbers + m ≤ length body.now) }
    ensures { found_is result ≡ lowest m (lower set body.now held numbers) }
{
    first_of(set, |y| body[held + y] < body[numbers + y])
}

// The lowest cell of the set with a number in the row held that is not its own.
pub fn overtaken(body: &[u32], m: usize, set: u32, held: usize) -> Option<u8>
    requires { Among m set body.now × (held + m ≤ length body.now) }
    ensures { found_is result ≡ lowest m (differs m set body.now held) }
{
    first_of(set, |z| body[held + z] != body[places::own_number(m, z)])
}

// The lowest cell of the set with 65,535 as its own number.
pub fn spent(body: &[u32], m: usize, set: u32) -> Option<u8>
    requires { Among m set body.now }
    ensures { found_is result ≡ lowest m (filled m set body.now) }
{
    first_of(
        set,
        |z| body[places::own_number(m, z)] == limits::MOST_NUMBER,
    )
}
