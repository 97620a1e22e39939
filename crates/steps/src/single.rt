// Begin, write, read and give up: each changes one handler's block, a part in the middle of the body, and no word outside it.
ghost use Rattle.std.specs.Prelude.{◌≡◌};
ghost use Rattle.rules.specs.steps.Codes as Codes;
ghost use Rattle.rules.specs.steps.Register.{has_open};
ghost use Rattle.rules.specs.steps.Replies as Replies;
ghost use Rattle.layout.specs.View.{view};
ghost use Rattle.replies.specs.Meaning.{outcome_is};
ghost use Rattle.steps.specs.Takes.{Seated, Ready, Unread, Takes};

use places::{block_at, cell_at};
use replies::{Outcome, Reason};

// Whether the handler's transaction is open.
pub fn is_open(body: &[u32], m: usize, n: usize, i: usize) -> bool
    requires { Seated m n body.now i }
    ensures { result ≡ has_open ((view m n body.now).handlers i) }
{
    body[block_at(m, i).start + places::PHASE] != 0
}

// A begin.
pub fn begin(body: &mut [u32], m: usize, n: usize, i: usize)
    requires { Ready m n body.old i Codes.begin }
    ensures { Takes m n body.old i Codes.begin 0 Replies.ok body.new }
{
    block::begin(&mut body[block_at(m, i)], m);
}

// A give up: the transaction is ended as any abort ends it.
pub fn give_up(body: &mut [u32], m: usize, n: usize, i: usize) -> Outcome
    requires { Ready m n body.old i Codes.give_up }
    ensures { Takes m n body.old i Codes.give_up 0 (outcome_is result) body.new }
{
    block::rest(&mut body[block_at(m, i)], m);
    Outcome::Aborted(Reason::GaveUp)
}

// A write of cell x.
pub fn write(body: &mut [u32], m: usize, n: usize, i: usize, x: usize, value: u32)
    requires { Ready m n body.old i (Codes.write x) }
    ensures { Takes m n body.old i (Codes.write x) value Replies.ok body.new }
{
    block::write(&mut body[block_at(m, i)], m, x, value);
}

// A read of cell x that is in neither set. A number that the read set holds is not below the cell's once nothing is torn, so that all
// numbers are raised, whatever the set, before x joins at its own. The cell's words lie outside the lent block: its numbers are copied out.
fn first_read(body: &mut [u32], m: usize, n: usize, i: usize, x: usize) -> Outcome
    requires { Unread m n body.old i x }
    ensures { Takes m n body.old i (Codes.read x) 0 (outcome_is result) body.new }
{
    let first = cell_at(m, x).start;
    let numbers = first + places::NUMBERS;
    let span = block_at(m, i);
    let start = span.start;
    let held = start + places::transaction_numbers(m);
    let set = body[start + places::READ_SET];
    if let Some(y) = searches::torn(body, m, set, held, numbers) {
        block::rest(&mut body[span], m);
        return Outcome::Aborted(Reason::Torn(y));
    }
    let value = body[first + places::VALUE];
    let own = body[numbers + x];
    let row = words::copy_out(body, numbers, m);
    block::join(&mut body[span], m, x, value, &row);
    Outcome::Shows(replies::version_shows(own, value))
}

// A read of cell x: what it wrote itself, or what the version shows that it holds, and else the first read.
pub fn read(body: &mut [u32], m: usize, n: usize, i: usize, x: usize) -> Outcome
    requires { Ready m n body.old i (Codes.read x) }
    ensures { Takes m n body.old i (Codes.read x) 0 (outcome_is result) body.new }
{
    let start = block_at(m, i).start;
    let read = body[start + places::READ_SET];
    let written = body[start + places::WRITTEN_SET];
    let copies = start + places::copies(m);
    if words::has(written, x) {
        return Outcome::Shows(Some(body[copies + x]));
    }
    if words::has(read, x) {
        let number = body[start + places::transaction_numbers(m) + x];
        return Outcome::Shows(replies::version_shows(number, body[copies + x]));
    }
    first_read(body, m, n, i, x)
}
