// The lines of a run: what an order place shows, and the bytes of each line, put on a page.
// Internal: called by our crates alone, which show what each function requires. A place's line fits in `limits::LONGEST_LINE` bytes.
#![tactic(auto)]

ghost use Rattle.std.specs.Prelude.{◌+◌, ◌*◌, ◌≤◌, ◌++◌, length};
ghost use Rattle.limits.specs.Limits.{most_file_bytes, longest_line};
ghost use Rattle.rules.specs.steps.Replies.{reason_cell};
ghost use Rattle.replies.specs.Meaning.{reason_is, content_is, outcome_is, refusal_is, reply_is};
ghost use Rattle.replies.specs.Ends.{end_is};
ghost use Rattle.text.specs.Bytes.{decimal};
ghost use Rattle.text.specs.Lies.{farthest};
ghost use Rattle.text.specs.Pages.{Writes};
ghost use Rattle.lines.specs.Lines.{line_is};
ghost use Rattle.lines.specs.Texts.{front_text, content_text, named_text, abort_text, outcome_text};
ghost use Rattle.lines.specs.Texts.{refusal_text, reply_text, place_text, header_text, end_text, refused_text};

use replies::{CellEnd, Outcome, Reason, Refusal, Report};
use text::Page;

// What a place shows: nothing where the order has no such place, a refusal where no step was taken, or the answer to a step.
#[derive(Clone, Copy, Debug, PartialEq, Eq)]
pub enum Shown {
    Nothing,
    NoStep {
        handler: u8,
        refusal: Refusal,
    },
    Asked {
        handler: u8,
        code: u8,
        answer: Result<Report, Refusal>,
    },
}

// Puts a number and a text behind it.
fn put_followed(page: &mut Page<'_>, n: u32, behind: &[u8])
    requires { (page.old.end ≤ farthest + 64) × (length behind.now ≤ 16) }
    ensures puts { Writes (decimal n ++ behind.now) page.old page.new }
    ensures upper_bound { page.new.end ≤ page.old.end + length behind.now + 10 }
{
    page.put_number(n);
    page.put_text(behind);
}

// Puts a refusal.
fn put_refusal(page: &mut Page<'_>, refusal: Refusal)
    requires { page.old.end ≤ farthest + 64 }
    ensures puts { Writes (refusal_text (refusal_is refusal)) page.old page.new }
    ensures upper_bound { page.new.end ≤ page.old.end + 18 }
{
    page.put_text(b"refused ");
    page.put_number(replies::refusal_number(refusal));
}

// Puts what is shown of a cell.
fn put_content(page: &mut Page<'_>, content: Option<u32>)
    requires { page.old.end ≤ farthest + 64 }
    ensures puts { Writes (content_text (content_is content)) page.old page.new }
    ensures upper_bound { page.new.end ≤ page.old.end + 18 }
{
    match content {
        None => page.put_text(b"unset"),
        Some(value) => {
            page.put_text(b"value ");
            page.put_number(value);
        }
    }
}

// Puts the cell that a reason names, if it names one.
#[tactic(auto, using(text::proofs::Decimals::widths))]
fn put_cell_of(page: &mut Page<'_>, reason: Reason)
    requires { page.old.end ≤ farthest + 96 }
    ensures puts { Writes (named_text (reason_cell (reason_is reason))) page.old page.new }
    ensures upper_bound { page.new.end ≤ page.old.end + 9 }
{
    match reason {
        Reason::Torn(cell) | Reason::Overtaken(cell) | Reason::Spent(cell) => {
            page.put_text(b" cell ");
            page.put_number(cell as u32);
        }
        Reason::GaveUp => {}
    }
}

// Puts an abort: its number, and the cell that it names.
#[tactic(auto, using(crate::proofs::Reasons::reason_short))]
fn put_abort(page: &mut Page<'_>, reason: Reason)
    requires { page.old.end ≤ farthest + 64 }
    ensures puts { Writes (abort_text (reason_is reason)) page.old page.new }
    ensures upper_bound { page.new.end ≤ page.old.end + 18 }
{
    page.put_text(b"abort ");
    page.put_number(replies::reason_number(reason));
    put_cell_of(page, reason);
}

// Puts what a step came to.
fn put_outcome(page: &mut Page<'_>, outcome: Outcome)
    requires { page.old.end ≤ farthest + 64 }
    ensures puts { Writes (outcome_text (outcome_is outcome)) page.old page.new }
    ensures upper_bound { page.new.end ≤ page.old.end + 18 }
{
    match outcome {
        Outcome::Done => page.put_text(b"ok"),
        Outcome::Shows(content) => put_content(page, content),
        Outcome::Committed => page.put_text(b"commit"),
        Outcome::Aborted(reason) => put_abort(page, reason),
    }
}

// Puts the answer to a step: what the report says that it came to, or else the refusal.
fn put_answer(page: &mut Page<'_>, answer: Result<Report, Refusal>)
    requires { page.old.end ≤ farthest + 64 }
    ensures puts { Writes (reply_text (reply_is answer)) page.old page.new }
    ensures upper_bound { page.new.end ≤ page.old.end + 18 }
{
    let Ok(report) = answer else {
        page.put_text(b"refused ");
        page.put_number(replies::numbers_of(answer).detail);
        return;
    };
    put_outcome(page, report.outcome);
}

// Puts the front of a place's line: the place and the handler.
#[tactic(auto, using(text::proofs::Decimals::widths), unfolding(crate::specs::Texts::front_text))]
fn put_start(page: &mut Page<'_>, place: usize, handler: u8)
    requires { (page.old.end ≤ farthest) × (place ≤ most_file_bytes) }
    ensures puts { Writes (front_text place handler) page.old page.new }
    ensures upper_bound { page.new.end ≤ page.old.end + 10 }
{
    put_followed(page, place as u32, b" ");
    put_followed(page, handler as u32, b" ");
}

// Puts the line of an order place, if it shows one.
#[tactic(auto, using(text::proofs::Decimals::widths), unfolding(crate::specs::Texts::line_text))]
pub fn put_place(page: &mut Page<'_>, place: usize, shown: Shown)
    requires { (page.old.end ≤ farthest) × (place ≤ most_file_bytes) }
    ensures puts { Writes (place_text (line_is place shown)) page.old page.new }
    ensures upper_bound { page.new.end ≤ page.old.end + longest_line }
{
    match shown {
        Shown::Nothing => {}
        Shown::NoStep { handler, refusal } => {
            put_start(page, place, handler);
            page.put_text(b"-");
            page.put_text(b" ");
            put_refusal(page, refusal);
            page.put_text(b"\n");
        }
        Shown::Asked {
            handler,
            code,
            answer,
        } => {
            put_start(page, place, handler);
            put_followed(page, code as u32, b" ");
            put_answer(page, answer);
            page.put_text(b"\n");
        }
    }
}

// Puts the header.
#[tactic(auto, unfolding(crate::specs::Texts::header_text))]
pub fn put_header(page: &mut Page<'_>, handlers: u32, cells: u32)
    requires { page.old.end ≤ farthest }
    ensures puts { Writes (header_text handlers cells) page.old page.new }
    ensures upper_bound { page.new.end ≤ page.old.end + 2 * longest_line }
{
    page.put_text(b"handlers ");
    put_followed(page, handlers, b" cells ");
    put_followed(page, cells, b"\n");
}

// Puts the line of a cell at the end, if there is such a cell.
#[tactic(auto, unfolding(crate::specs::Texts::cell_text))]
pub fn put_cell(page: &mut Page<'_>, c: u32, end: Option<CellEnd>)
    requires { page.old.end ≤ farthest }
    ensures puts { Writes (end_text c (end_is end)) page.old page.new }
    ensures upper_bound { page.new.end ≤ page.old.end + 2 * longest_line }
{
    if let Some(CellEnd { content, number }) = end {
        page.put_text(b"cell ");
        put_followed(page, c, b" ");
        put_content(page, content);
        page.put_text(b" number ");
        put_followed(page, number, b"\n");
    }
}

// Puts the one line of a refused file.
#[tactic(auto, unfolding(crate::specs::Texts::refused_text))]
pub fn put_refused(page: &mut Page<'_>, refusal: Refusal)
    requires { page.old.end ≤ farthest }
    ensures puts { Writes (refused_text (refusal_is refusal)) page.old page.new }
    ensures upper_bound { page.new.end ≤ page.old.end + longest_line }
{
    put_refusal(page, refusal);
    page.put_text(b"\n");
}
