// The duty sheet over many schedule files: a row of counts for each handler, in words that the caller lends; the run of each file that
// is added is counted into it.
// PUBLIC: `add_file` has no `requires`; its promise fixes the reply and every word of the sheet, for all words and files.
#![tactic(auto)]

ghost use Rattle.std.specs.Prelude.{◌≡◌, ◌+◌, ◌≤◌, length};
ghost use Rattle.limits.specs.Limits.{most_file_bytes};
ghost use Rattle.words.specs.Rows.{Changed};
ghost use Rattle.lines.specs.declared.Shown.TheVariants.{Asked};
ghost use Rattle.schedule.specs.Admitting.{sound, admission_of};
ghost use Rattle.schedule.specs.Taking.{at_start};
ghost use Rattle.runs.specs.ByRules.{run_of};
ghost use Rattle.runs.specs.Players.{the_register};
ghost use Rattle.runs.specs.ByPlaces.{places_from};
ghost use Rattle.counts.specs.Rows.{in_column};
ghost use Rattle.sheets.specs.Sheets.{lines_of, columns, sheet_long, with_lines, full_above, is_full, AddPromise};
ghost use Rattle.sheets.specs.Adding.{CountsTo, most_raised, ReadAt, WithShown};
ghost use Rattle.sheets.specs.Meaning.{added_is};

use counts::Counts;
use lines::Shown;
use replies::{Refusal, Report};
use runs::Player;
use schedule::Sizes;

// Whether some count of the sheet is above the one up to which it takes a file.
fn is_full(sheet: &[u32]) -> bool
    requires { sheet_long ≤ length sheet.now }
    ensures { result ≡ is_full sheet.now }
{
    sheet[..limits::SHEET_WORDS]
        .iter()
        .any(|&count| count > limits::SHEET_FULL)
}

// The counts of the row that begins at a place.
fn counts_at(sheet: &[u32], at: usize) -> Counts
    requires { at + columns ≤ length sheet.now }
    ensures { ReadAt at sheet.now result }
{
    Counts {
        begun: sheet[at + places::BEGUN],
        committed: sheet[at + places::COMMITTED],
        torn: sheet[at + places::TORN],
        overtaken: sheet[at + places::OVERTAKEN],
        spent: sheet[at + places::SPENT],
        given_up: sheet[at + places::GAVE_UP],
    }
}

// Puts counts into the row that begins at a place.
fn put_counts(sheet: &mut [u32], at: usize, counts: Counts)
    requires { at + columns ≤ length sheet.old }
    ensures { Changed at columns (in_column counts) sheet.old sheet.new }
{
    sheet[at + places::BEGUN] = counts.begun;
    sheet[at + places::COMMITTED] = counts.committed;
    sheet[at + places::TORN] = counts.torn;
    sheet[at + places::OVERTAKEN] = counts.overtaken;
    sheet[at + places::SPENT] = counts.spent;
    sheet[at + places::GAVE_UP] = counts.given_up;
}

// Counts the answer to a handler's step; a handler that no register has, has no row.
fn count_answer(sheet: &mut [u32], handler: u8, code: u8, answer: Result<Report, Refusal>)
    requires { CountsTo most_raised sheet.old }
    ensures { WithShown (Asked handler code answer) sheet.old sheet.new }
{
    let i = handler as usize;
    if i >= limits::HANDLER_TABLE {
        return;
    }
    let at = places::sheet_row(i);
    let counts = counts_at(sheet, at);
    put_counts(sheet, at, counts::kept_up(counts, code as u32, answer));
}

// Counts what a place shows: the answer to a step, and nothing where no step was taken.
fn count_place(sheet: &mut [u32], shown: Shown)
    requires { CountsTo most_raised sheet.old }
    ensures { WithShown shown sheet.old sheet.new }
{
    match shown {
        Shown::Asked {
            handler,
            code,
            answer,
        } => count_answer(sheet, handler, code, answer),
        Shown::Nothing | Shown::NoStep { .. } => {}
    }
}

// Counts what each order place shows, one after another.
fn count_places(sheet: &mut [u32], file: &[u8], places: usize, words: &mut [u32])
    requires { CountsTo full_above sheet.old × (places ≤ most_file_bytes) }
    ensures { sheet.new ≡ with_lines sheet.old
        (places_from the_register file.now places at_start 0 words.old).lines }
{
    let mut cursors = schedule::at_start();
    for place in 0..places {
        let placed = runs::play_place(Player::Register, file, cursors, place, words);
        cursors = placed.cursors;
        count_place(sheet, placed.shown);
    }
}

// Counts the run of a file that is admitted, on a register of its own.
fn count_run(sheet: &mut [u32], file: &[u8], sizes: Sizes)
    requires { CountsTo full_above sheet.old × (sound sizes.handlers sizes.cells ≡ admission_of file.now) }
    ensures { sheet.new ≡ with_lines sheet.old (lines_of (run_of file.now)) }
{
    let mut words = [0u32; limits::REGISTER_WORDS];
    let _ = runs::open(Player::Register, &mut words, sizes.cells, sizes.handlers);
    let places = schedule::order_places(file);
    count_places(sheet, file, places, &mut words);
}

// Adds a file that is admitted to a sheet that is not full.
fn add_admitted(sheet: &mut [u32], file: &[u8], sizes: Sizes) -> Result<(), Refusal>
    requires { (sheet_long ≤ length sheet.old) × (sound sizes.handlers sizes.cells ≡ admission_of file.now) }
    ensures { AddPromise sheet.old file.now (added_is result) sheet.new }
{
    if is_full(sheet) {
        return Err(Refusal::SheetFull);
    }
    count_run(sheet, file, sizes);
    Ok(())
}

// Adds a file to a sheet: each reply of its run is counted in its handler's row, or the file is refused and every word is as it was.
#[tactic(auto, using(crate::proofs::Adds::add_short))]
pub fn add_file(sheet: &mut [u32], file: &[u8]) -> Result<(), Refusal>
    ensures { AddPromise sheet.old file.now (added_is result) sheet.new }
{
    if sheet.len() < limits::SHEET_WORDS {
        return Err(Refusal::TooShort);
    }
    let sizes = schedule::admit_file(file)?;
    add_admitted(sheet, file, sizes)
}
