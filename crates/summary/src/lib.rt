// What is printed of a duty sheet: the line of each file that is added, and a line of counts for each handler, put into a lent buffer and
// counted whether it fits or not, as C's snprintf does.
// PUBLIC: `put_sheet` has no `requires`; its promise fixes the reply and every byte of the buffer, for all words and buffers.
// `put_added` is called by our program alone, which shows that a name is no longer than a path can be.
#![tactic(auto)]

ghost use Rattle.std.specs.Prelude.{◌+◌, ◌≤◌, ◌<◌, ◌≡◌, ◌++◌, length};
ghost use Rattle.limits.specs.Limits.{most_handlers};
ghost use Rattle.text.specs.Bytes.{decimal};
ghost use Rattle.text.specs.Lies.{farthest};
ghost use Rattle.text.specs.Pages.{Writes};
ghost use Rattle.sheets.specs.Sheets.{columns, counted};
ghost use Rattle.sheets.specs.Meaning.{added_is};
ghost use Rattle.summary.specs.Texts.{row_text, longest_row, most_summary, verdict_text, longest_name, longest_verdict};
ghost use Rattle.summary.specs.Putting.{SheetTextPromise, AddedTextPromise};

use places::{BEGUN, COMMITTED, GAVE_UP, OVERTAKEN, SPENT, TORN};
use replies::Refusal;
use text::Page;

// The most bytes that are put of a sheet: 16 lines of 129.
pub const MOST_SUMMARY: usize = 2064;

// The longest name of a file, in bytes.
pub const LONGEST_NAME: usize = 4096;

// The most bytes that are put of a file: its name, 19 behind it, and the end of the line.
pub const MOST_ADDED: usize = LONGEST_NAME + 20;

// A handler's count in a column; words that are missing count as 0.
fn count_at(sheet: &[u32], handler: usize, column: usize) -> u32
    requires { (handler < most_handlers) × (column < columns) }
    ensures { result ≡ counted sheet.now handler column }
{
    let at = places::sheet_row(handler) + column;
    sheet.get(at).copied().unwrap_or(0)
}

// Puts a word and a number behind it.
fn put_named(page: &mut Page<'_>, word: &[u8], number: u32)
    requires { (page.old.end ≤ farthest) × (length word.now ≤ 16) }
    ensures puts { Writes (word.now ++ decimal number) page.old page.new }
    ensures upper_bound { page.new.end ≤ page.old.end + length word.now + 10 }
{
    page.put_text(word);
    page.put_number(number);
}

// Puts a word and a handler's count in a column behind it.
fn put_count(page: &mut Page<'_>, word: &[u8], sheet: &[u32], handler: usize, column: usize)
    requires { (handler < most_handlers) × (column < columns) × (page.old.end ≤ farthest) × (length word.now ≤ 16) }
    ensures puts { Writes (word.now ++ decimal (counted sheet.now handler column)) page.old page.new }
    ensures upper_bound { page.new.end ≤ page.old.end + length word.now + 10 }
{
    put_named(page, word, count_at(sheet, handler, column));
}

// Puts the line of a handler.
fn put_row(page: &mut Page<'_>, sheet: &[u32], handler: usize)
    requires { (page.old.end ≤ most_summary) × (handler < most_handlers) }
    ensures puts { Writes (row_text handler (counted sheet.now handler)) page.old page.new }
    ensures upper_bound { page.new.end ≤ page.old.end + longest_row }
{
    put_named(page, b"handler ", handler as u32);
    put_count(page, b" begun ", sheet, handler, BEGUN);
    put_count(page, b" committed ", sheet, handler, COMMITTED);
    put_count(page, b" abort1 ", sheet, handler, TORN);
    put_count(page, b" abort2 ", sheet, handler, OVERTAKEN);
    put_count(page, b" abort3 ", sheet, handler, SPENT);
    put_count(page, b" abort5 ", sheet, handler, GAVE_UP);
    page.put_text(b"\n");
}

// Puts the lines of a sheet into a buffer: one for each of 16 handlers; how long they are.
pub fn put_sheet(sheet: &[u32], buffer: &mut [u8]) -> usize
    ensures sheet_text_promise { SheetTextPromise sheet.now buffer.old result buffer.new }
    ensures upper_bound { result ≤ most_summary }
{
    let mut page = Page::new(buffer);
    for handler in 0..limits::HANDLER_TABLE {
        put_row(&mut page, sheet, handler);
    }
    page.end
}

// Puts what came of a file: that it was counted, or the number that it was refused with.
fn put_verdict(page: &mut Page<'_>, added: Result<(), Refusal>)
    requires { page.old.end ≤ longest_name }
    ensures puts { Writes (verdict_text (added_is added)) page.old page.new }
    ensures upper_bound { page.new.end ≤ page.old.end + longest_verdict }
{
    match added {
        Ok(()) => page.put_text(b" ok"),
        Err(refusal) => put_named(page, b" refused ", replies::refusal_number(refusal)),
    }
}

// Puts the line of a file into a buffer: its name, and what adding it came to; how long it is.
pub fn put_added(buffer: &mut [u8], name: &[u8], added: Result<(), Refusal>) -> usize
    requires { length name.now ≤ longest_name }
    ensures added_text_promise { AddedTextPromise name.now (added_is added) buffer.old result buffer.new }
    ensures upper_bound { result ≤ length name.now + longest_verdict + 1 }
{
    let mut page = Page::new(buffer);
    page.put_text(name);
    put_verdict(&mut page, added);
    page.put_text(b"\n");
    page.end
}
