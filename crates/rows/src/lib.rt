// Many steps in one call: a row of steps, a register and words for the reports, all lent by the caller. The register is tested once, and the
// table of step codes is asked for once.
// PUBLIC: `row` has no `requires`; its promise fixes the reply, every word of the register, of the reports and around them.
#![tactic(auto)]

ghost use Rattle.std.specs.Prelude.{◌≡◌, not, ◌+◌, ◌*◌, ◌≤◌, ltb, length};
ghost use Rattle.rules.specs.steps.Codes.{plain_sheet};
ghost use Rattle.limits.specs.Limits.{step_width, report_width};
ghost use Rattle.layout.specs.Rows.{splice};
ghost use Rattle.layout.specs.WellFormed.{WellFormed};
ghost use Rattle.replies.specs.Meaning.{reply_is};
ghost use Rattle.checks.specs.Promises.{TablePromise};
ghost use Rattle.rows.specs.Rows.{steps_in, report_of, words_after, reports_of, RowPromise};
ghost use Rattle.rows.specs.Meaning.{rowed_is};

use replies::{Refusal, Report};

// Whether so many reports fit from a place on. Nothing is added up that could wrap, whatever the place.
fn has_room(length: usize, place: usize, count: usize) -> bool
    ensures { result ≡ not (ltb length (place + report_width * count)) }
{
    if length < place {
        return false;
    }
    count <= (length - place) / limits::REPORT_WIDTH
}

// Puts the report of a step at a place.
fn put_report(
    reports: &mut [u32],
    at: usize,
    handler: u32,
    code: u32,
    answer: Result<Report, Refusal>,
)
    requires { at + report_width ≤ length reports.old }
    ensures { reports.new
        ≡ splice at report_width (report_of (record { handler = handler; code = code; value = 0 }) (reply_is answer)) reports.old }
{
    let numbers = replies::numbers_of(answer);
    reports[at + places::REPORT_HANDLER] = handler;
    reports[at + places::REPORT_CODE] = code;
    reports[at + places::REPORT_KIND] = numbers.kind;
    reports[at + places::REPORT_DETAIL] = numbers.detail;
    reports[at + places::REPORT_CELL] = numbers.cell;
}

// Takes the steps of a row by the table of the plain sheet, and puts the report of each behind that of the one before it.
fn take_steps(words: &mut [u32], table: &[u8], steps: &[u32], reports: &mut [u32], place: usize)
    requires table_promise { TablePromise plain_sheet table.now }
    requires well_formed { WellFormed words.old × (place + report_width * length (steps_in steps.now) ≤ length reports.old) }
    ensures { (words.new ≡ words_after words.old (steps_in steps.now))
        × (reports.new
        ≡ splice place (report_width * length (steps_in steps.now)) (reports_of words.old (steps_in steps.now)) reports.old) }
{
    for (k, step) in steps.chunks_exact(limits::STEP_WIDTH).enumerate() {
        let handler = step[places::STEP_HANDLER];
        let code = step[places::STEP_CODE];
        let value = step[places::STEP_VALUE];
        let entry = checks::entry_by(table, code);
        let turned = turns::step_formed(words, handler, entry, value);
        put_report(
            reports,
            place + limits::REPORT_WIDTH * k,
            handler,
            code,
            turns::answer_of(handler, code, turned),
        );
    }
}

// Takes the steps of a row, each on what the one before it left, and reports each; or refuses the row, and takes none.
pub fn row(
    words: &mut [u32],
    steps: &[u32],
    reports: &mut [u32],
    place: usize,
) -> Result<(), Refusal>
    ensures { RowPromise words.old steps.now reports.old place (rowed_is result)
        words.new reports.new }
{
    if !formed::well_formed(words) {
        return Err(Refusal::NotWellFormed);
    }
    let count = steps.len() / limits::STEP_WIDTH;
    if !has_room(reports.len(), place, count) {
        return Err(Refusal::NoRoom);
    }
    let table = checks::plain_table();
    take_steps(words, &table, steps, reports, place);
    Ok(())
}
