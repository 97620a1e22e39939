// The page of step codes, as the fitters' manual prints it: a heading, and a row for each code with its step and its cell, put into a lent
// buffer and counted whether it fits or not, as C's snprintf does. What a code stands for is asked of `checks`, as for every step.
// PUBLIC: `put_codes` has no `requires`; its promise fixes the reply and every byte of the buffer, for all buffers.
#![tactic(auto)]

ghost use Rattle.std.specs.Prelude.{◌+◌, ◌≤◌, ◌<◌, ◌≡◌};
ghost use Rattle.rules.specs.steps.Codes.{plain_sheet};
ghost use Rattle.checks.specs.Meaning.{kind_is};
ghost use Rattle.text.specs.Lies.{farthest};
ghost use Rattle.text.specs.Pages.{Writes};
ghost use Rattle.checks.specs.Entries.{cell_named};
ghost use Rattle.manual.specs.Page.{step_text, margin_text, number_text, row_text, head_text, head_bytes, row_bytes, page_bytes, code_count};
ghost use Rattle.manual.specs.Putting.{CodesPromise};

use checks::Step;
use text::Page;

// The bytes of the page: its heading of 257, and 256 rows of 26.
pub const PAGE_BYTES: usize = 6913;

// The heading: what the page has, and the heads of its columns.
const HEAD: &[u8] = b"# Step codes\n\n\
    What each of the 256 step codes stands for, and the cell that a\n\
    read or a write names; with every other code the cell is 0. An\n\
    unknown code is refused with 15, and so is a number above 255.\n\n\
    | code | step    | cell |\n|-----:|---------|-----:|\n";

// The cell that a kind of step names; 0 where it names none.
fn cell_named(kind: Option<Step>) -> usize
    ensures { result ≡ cell_named (kind_is kind) }
{
    match kind {
        Some(Step::Read(x) | Step::Write(x)) => x,
        Some(Step::Begin | Step::Try | Step::GiveUp) | None => 0,
    }
}

// Puts the step that a kind is, to the end of its column.
fn put_step(page: &mut Page<'_>, kind: Option<Step>)
    requires { page.old.end ≤ farthest }
    ensures puts { Writes (step_text (kind_is kind)) page.old page.new }
    ensures value { page.new.end ≡ page.old.end + 9 }
{
    match kind {
        Some(Step::Begin) => page.put_text(b" begin   "),
        Some(Step::Try) => page.put_text(b" try     "),
        Some(Step::GiveUp) => page.put_text(b" give up "),
        Some(Step::Read(_)) => page.put_text(b" read    "),
        Some(Step::Write(_)) => page.put_text(b" write   "),
        None => page.put_text(b" unknown "),
    }
}

// Puts the bar in front of a number, and the spaces that bring its last digit to the end of its column.
#[tactic(auto, unfolding(crate::specs::Page::margin_text))]
fn put_margin(page: &mut Page<'_>, n: u32)
    requires { page.old.end ≤ farthest }
    ensures { Writes (margin_text n) page.old page.new }
{
    if n < 10 {
        page.put_text(b"|    ");
    } else if n < 100 {
        page.put_text(b"|   ");
    } else {
        page.put_text(b"|  ");
    }
}

// Puts a number of at most three digits in its column, between bars.
#[tactic(auto, using(crate::proofs::Columns::column_short))]
fn put_column(page: &mut Page<'_>, n: u32)
    requires { (page.old.end ≤ farthest) × (n < code_count) }
    ensures puts { Writes (number_text n) page.old page.new }
    ensures upper_bound { page.new.end ≤ page.old.end + 8 }
{
    put_margin(page, n);
    page.put_number(n);
    page.put_text(b" |");
}

// Puts the row of a code.
#[tactic(auto, using(crate::proofs::Columns::cell_small))]
fn put_row(page: &mut Page<'_>, code: u32)
    requires { (page.old.end ≤ page_bytes) × (code < code_count) }
    ensures puts { Writes (row_text code (plain_sheet code)) page.old page.new }
    ensures upper_bound { page.new.end ≤ page.old.end + row_bytes }
{
    let kind = checks::kind_of(code);
    put_column(page, code);
    put_step(page, kind);
    put_column(page, cell_named(kind) as u32);
    page.put_text(b"\n");
}

// Puts the heading.
#[tactic(auto, unfolding(crate::specs::Page::head_text, text::specs::Bytes::written))]
fn put_head(page: &mut Page<'_>)
    requires { page.old.end ≤ farthest }
    ensures puts { Writes head_text page.old page.new }
    ensures value { page.new.end ≡ page.old.end + head_bytes }
{
    page.put_text(HEAD);
}

// Puts the page of step codes into a buffer: its heading, and a row for each of 256 codes; how long it is.
pub fn put_codes(buffer: &mut [u8]) -> usize
    ensures codes_promise { CodesPromise buffer.old result buffer.new }
    ensures upper_bound { result ≤ page_bytes }
{
    let mut page = Page::new(buffer);
    put_head(&mut page);
    for code in 0..256 {
        put_row(&mut page, code);
    }
    page.end
}
