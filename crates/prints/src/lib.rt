// A whole run of a schedule file as one operation on slices: everything that is printed of it is put into a lent buffer, and counted
// whether it fits or not, as C's snprintf does.
// PUBLIC: `run` and `judge` have no `requires`; each promise fixes the reply and every byte of the buffer, for all files and buffers.
#![tactic(auto)]

ghost use Rattle.std.specs.Prelude.{◌+◌, ◌*◌, ◌≤◌, ◌≡◌};
ghost use Rattle.limits.specs.Limits.{most_cells, most_file_bytes, longest_line, most_printed};
ghost use Rattle.text.specs.Pages.{Writes};
ghost use Rattle.schedule.specs.Taking.{at_start};
ghost use Rattle.runs.specs.Players.{player_is};
ghost use Rattle.runs.specs.ByPlaces.{places_from};
ghost use Rattle.prints.specs.Printed.{RunPromise, JudgedRunPromise};
ghost use Rattle.prints.specs.ByPlaces.{shown_cells, admitted_text, file_text, PlacesPut};
ghost use Rattle.schedule.specs.Admitting.{sound};

use runs::Player;
use schedule::Sizes;
use text::Page;

// Puts the line of each order place, one after another, until the run stops; whether it came to its end.
fn put_places(
    page: &mut Page<'_>,
    player: Player,
    file: &[u8],
    places: usize,
    words: &mut [u32],
) -> bool
    requires { (page.old.end ≤ most_printed) × (places ≤ most_file_bytes) }
    ensures places_put { PlacesPut (places_from (player_is player) file.now places at_start 0 words.old) result
        page.old page.new words.new }
    ensures end_bound { page.new.end ≤ page.old.end + places * longest_line }
{
    let mut cursors = schedule::at_start();
    for place in 0..places {
        let placed = runs::play_place(player, file, cursors, place, words);
        cursors = placed.cursors;
        lines::put_place(page, place, placed.shown);
        if runs::stops_at(placed.shown) {
            return false;
        }
    }
    true
}

// Puts the line of each cell.
fn put_cells(page: &mut Page<'_>, player: Player, words: &[u32], cells: u32)
    requires { (page.old.end ≤ 2 * most_printed) × (cells ≤ most_cells) }
    ensures puts { Writes (shown_cells (player_is player) cells words.now) page.old page.new }
    ensures upper_bound { page.new.end ≤ page.old.end + cells * (2 * longest_line) }
{
    for c in 0..cells {
        lines::put_cell(page, c, runs::cell_end(player, words, c));
    }
}

// Puts what is printed of a sound file: a header, its lines, and its cells where the run did not stop.
#[tactic(auto, using(schedule::proofs::Nexts::places_few))]
fn put_run(page: &mut Page<'_>, player: Player, file: &[u8], sizes: Sizes, words: &mut [u32])
    requires { (page.old.end ≡ 0) × (sizes.cells ≤ most_cells) }
    ensures puts { Writes (admitted_text (player_is player) file.now words.old (sound sizes.handlers sizes.cells)) page.old page.new }
    ensures upper_bound { page.new.end ≤ most_printed }
{
    let _ = runs::open(player, words, sizes.cells, sizes.handlers);
    lines::put_header(page, sizes.handlers, sizes.cells);
    let places = schedule::order_places(file);
    let whole = put_places(page, player, file, places, words);
    if whole {
        put_cells(page, player, words, sizes.cells);
    }
}

// Puts what is printed of a file, which is admitted or refused before its first step.
fn put_file(page: &mut Page<'_>, player: Player, file: &[u8], words: &mut [u32])
    requires { page.old.end ≡ 0 }
    ensures puts { Writes (file_text (player_is player) file.now words.old) page.old page.new }
    ensures upper_bound { page.new.end ≤ most_printed }
{
    match schedule::admit_file(file) {
        Ok(sizes) => put_run(page, player, file, sizes, words),
        Err(refusal) => lines::put_refused(page, refusal),
    }
}

// Runs a schedule file with the register: everything that is printed of it, into a buffer; how long that is.
pub fn run(file: &[u8], buffer: &mut [u8]) -> usize
    ensures run_promise { RunPromise file.now buffer.old result buffer.new }
    ensures upper_bound { result ≤ most_printed }
{
    let mut words = [0u32; limits::REGISTER_WORDS];
    let mut page = Page::new(buffer);
    put_file(&mut page, Player::Register, file, &mut words);
    page.end
}

// Runs a schedule file with the judge: everything that is printed of it, into a buffer; how long that is.
pub fn judge(file: &[u8], buffer: &mut [u8]) -> usize
    ensures judged_run_promise { JudgedRunPromise file.now buffer.old result buffer.new }
    ensures upper_bound { result ≤ most_printed }
{
    let mut words = [0u32; limits::LEDGER_WORDS];
    let mut page = Page::new(buffer);
    put_file(&mut page, Player::Judge, file, &mut words);
    page.end
}
