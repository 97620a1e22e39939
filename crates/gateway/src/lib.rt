// The register for programs in C and Rust: exported functions on numbers and words, thin over `register`, `rows`, `prints` and `sheets`.
// PUBLIC: nothing here has a `requires`. Each promise is the register's, a row's or a sheet's, said of numbers, or a whole run's.
#![tactic(auto)]

ghost use Rattle.std.specs.Prelude.{◌≡◌, ◌+◌, ◌*◌, ◌^◌, ◌≤◌};
ghost use Rattle.prints.specs.Printed.{RunPromise, JudgedRunPromise};
ghost use Rattle.replies.specs.Meaning.{reply_is, opening_is};
ghost use Rattle.rows.specs.Meaning.{rowed_is};
ghost use Rattle.sheets.specs.Meaning.{added_is};
ghost use Rattle.gateway.specs.Packed.{reply_number, opening_number, refused_number, LengthNumber, OpeningNumber, StepNumber, SheetNumber, RowNumber};

use replies::{Refusal, Report};

// The words that a register of m cells and n handlers needs; 0 where m or n is out of range.
#[unsafe(no_mangle)]
pub extern "C" fn zidlemowo_length(m: u32, n: u32) -> u32
    ensures { LengthNumber m n result }
{
    match register::words_needed(m, n) {
        Some(count) => count as u32,
        None => 0,
    }
}

// What a call came to as a number: 0, or the refusal's.
fn number_of(done: Result<(), Refusal>) -> u32
    ensures opening { result ≡ opening_number (opening_is done) }
    ensures row { result ≡ refused_number (rowed_is done) }
    ensures sheet { result ≡ refused_number (added_is done) }
{
    done.map_or_else(replies::refusal_number, |()| 0)
}

// Opens a register: 0, or the refusal's number.
#[unsafe(no_mangle)]
pub extern "C" fn zidlemowo_open(words: &mut [u32], m: u32, n: u32) -> u32
    ensures { OpeningNumber words.old m n result words.new }
{
    number_of(register::open(words, m, n))
}

// A kind, a cell and a detail in one number.
fn pack(kind: u32, cell: u32, detail: u32) -> u64
    requires { kind ≤ 5 }
    ensures { result ≡ kind * 2 ^ 32 + (cell * 65536 + detail) }
{
    (kind as u64) * 4294967296 + ((cell as u64) * 65536 + (detail as u64))
}

// The answer to a step in one number. A refusal is packed by itself: it names no cell, and has nothing to add.
fn pack_answer(answer: Result<Report, Refusal>) -> u64
    ensures { result ≡ reply_number (reply_is answer) }
{
    match answer {
        Ok(report) => {
            let numbers = replies::outcome_numbers(report.outcome);
            pack(numbers.kind, numbers.cell, numbers.detail)
        }
        Err(refusal) => pack(4, 0, replies::refusal_number(refusal)),
    }
}

// Takes the step of a handler: kind · 2^32 + cell · 65,536 + value or number.
#[unsafe(no_mangle)]
pub extern "C" fn zidlemowo_step(words: &mut [u32], handler: u32, code: u32, value: u32) -> u64
    ensures { StepNumber words.old handler code value result words.new }
{
    pack_answer(register::step(words, handler, code, value))
}

// Takes the steps of a row, and puts the report of each from a place on: 0, or the refusal's number.
#[unsafe(no_mangle)]
pub extern "C" fn zidlemowo_row(
    words: &mut [u32],
    steps: &[u32],
    reports: &mut [u32],
    place: usize,
) -> u32
    ensures { RowNumber words.old steps.now reports.old place result
        words.new reports.new }
{
    number_of(rows::row(words, steps, reports, place))
}

// Runs a schedule file with the register: everything that is printed of it, into the output as far as it fits; how long that is.
#[unsafe(no_mangle)]
pub extern "C" fn zidlemowo_run(file: &[u8], output: &mut [u8]) -> usize
    ensures { RunPromise file.now output.old result output.new }
{
    prints::run(file, output)
}

// Runs a schedule file with the judge: everything that is printed of it, into the output as far as it fits; how long that is.
#[unsafe(no_mangle)]
pub extern "C" fn zidlemowo_judge(file: &[u8], output: &mut [u8]) -> usize
    ensures { JudgedRunPromise file.now output.old result output.new }
{
    prints::judge(file, output)
}

// Adds a schedule file to a duty sheet: 0, or the refusal's number.
#[unsafe(no_mangle)]
pub extern "C" fn zidlemowo_sheet(counts: &mut [u32], file: &[u8]) -> u32
    ensures { SheetNumber counts.old file.now result counts.new }
{
    number_of(sheets::add_file(counts, file))
}
