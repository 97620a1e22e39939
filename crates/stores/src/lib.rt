// What a commit stores, where the words lie: the numbers of the written cells are raised in the transaction's row, and then each written
// cell takes its copy and that row. All numbers are raised before the first cell is stored.
// Internal: called by our crates alone, which show what each function requires.
#![tactic(auto)]

ghost use Rattle.std.specs.Prelude.{◌≡◌, ◌+◌, ◌<◌, get_or};
ghost use Rattle.layout.specs.Bits.{has_bit};
ghost use Rattle.layout.specs.Rows.{splice};
ghost use Rattle.layout.specs.Places.{cell_long, cell_start};
ghost use Rattle.layout.specs.View.{pour_cell};
ghost use Rattle.words.specs.Rows.{Changed};
ghost use Rattle.stores.specs.Stores.{Behind, Raisable, stamped_in, Stores};

use words::Cells;

// Each cell of the set gets the number one above its own in the row held.
pub fn stamp(body: &mut [u32], m: usize, set: u32, held: usize)
    requires { Behind m set held body.old × Raisable m body.old }
    ensures { Changed held m (stamped_in m set body.old held) body.old body.new }
{
    for c in Cells::of(set) {
        body[held + c] = body[places::own_number(m, c)] + 1;
    }
}

// Cell c takes its copy and the row held.
fn store_one(body: &mut [u32], m: usize, c: usize, copies: usize, held: usize)
    requires { (c < m) × Behind m 0 held body.old × Behind m 0 copies body.old }
    ensures { body.new
        ≡ splice (cell_start m c) (cell_long m)
        (pour_cell m (record { value = get_or body.old (copies + c) 0; numbers = λ y. get_or body.old (held + y) 0 }))
        body.old }
{
    let span = places::cell_at(m, c);
    let start = span.start;
    body[start + places::VALUE] = body[copies + c];
    words::copy(body, held, start + places::NUMBERS, m);
}

// Each cell of the set takes its copy and the row held.
pub fn store(body: &mut [u32], m: usize, set: u32, copies: usize, held: usize)
    requires { Behind m set held body.old × Behind m set copies body.old }
    ensures { Stores m (has_bit set) (λ c. get_or body.old (copies + c) 0) (λ y. get_or body.old (held + y) 0)
        body.old body.new }
{
    for c in Cells::of(set) {
        store_one(body, m, c, copies, held);
    }
}
