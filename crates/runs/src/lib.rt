// The run of a schedule file, one order place after another, whoever answers its steps: the register or the judge.
// Internal: called by `prints` and `sheets` alone, which admit a file before its first place. Nothing here has a `requires`, and each
// promise fixes the reply and every word of the player's.
#![tactic(auto)]

ghost use Rattle.std.specs.Prelude.{◌≡◌};
ghost use Rattle.replies.specs.Meaning.{reply_is, opening_is};
ghost use Rattle.replies.specs.Ends.{end_is};
ghost use Rattle.schedule.specs.Meaning.{next_is};
ghost use Rattle.lines.specs.Lines.{line_is};
ghost use Rattle.runs.specs.Players.{player_is, PlayerOpeningPromise, PlayerStepPromise, PlayerEndPromise};
ghost use Rattle.runs.specs.ByPlaces.{NextShown, PlacePromise};
ghost use Rattle.runs.specs.Stopping.{says_too_many, StopPromise};

use lines::Shown;
use replies::{CellEnd, Refusal, Report};
use schedule::{Cursors, Next};

// Who answers the steps of a run.
#[derive(Clone, Copy, Debug, PartialEq, Eq)]
pub enum Player {
    Register,
    Judge,
}

// What a place shows, and the cursors afterwards.
#[derive(Clone, Copy, Debug, PartialEq, Eq)]
pub struct Placed {
    pub shown: Shown,
    pub cursors: Cursors,
}

// Opens the words of a player for m cells and n handlers.
pub fn open(player: Player, words: &mut [u32], m: u32, n: u32) -> Result<(), Refusal>
    ensures { PlayerOpeningPromise (player_is player) words.old m n (opening_is result) words.new }
{
    match player {
        Player::Register => register::open(words, m, n),
        Player::Judge => judge::open(words, m, n),
    }
}

// Asks a player for the step of a handler.
pub fn step(
    player: Player,
    words: &mut [u32],
    handler: u32,
    code: u32,
    value: u32,
) -> Result<Report, Refusal>
    ensures { PlayerStepPromise (player_is player) words.old handler code value (reply_is result) words.new }
{
    match player {
        Player::Register => register::step(words, handler, code, value),
        Player::Judge => judge::step(words, handler, code, value),
    }
}

// What a cell holds and its own number, as a player's words say them.
pub fn cell_end(player: Player, words: &[u32], c: u32) -> Option<CellEnd>
    ensures { PlayerEndPromise (player_is player) words.now c (end_is result) }
{
    match player {
        Player::Register => register::cell_end(words, c),
        Player::Judge => judge::cell_end(words, c),
    }
}

// Shows what comes next at a place: a step is asked of the player.
fn show_next(player: Player, next: Next, words: &mut [u32]) -> Shown
    ensures { NextShown (player_is player) words.old (next_is next) result words.new }
{
    match next {
        Next::Rejected(_) | Next::Over => Shown::Nothing,
        Next::Refused { handler, refusal } => Shown::NoStep { handler, refusal },
        Next::Taken {
            handler,
            code,
            value,
        } => {
            let answer = step(player, words, handler as u32, code as u32, value);
            Shown::Asked {
                handler,
                code,
                answer,
            }
        }
    }
}

// Plays one order place of a file: the step that it names is asked of the player.
pub fn play_place(
    player: Player,
    file: &[u8],
    cursors: Cursors,
    place: usize,
    words: &mut [u32],
) -> Placed
    ensures { PlacePromise (player_is player) file.now cursors.at place words.old
        (line_is place result.shown) result.cursors.at words.new }
{
    let found = schedule::next_step(file, cursors, place);
    Placed {
        shown: show_next(player, found.next, words),
        cursors: found.cursors,
    }
}

// Whether an answer refuses a 65th commit.
#[tactic(auto, using(crate::proofs::Stops::others_few))]
fn is_too_many(answer: Result<Report, Refusal>) -> bool
    ensures { result ≡ says_too_many (reply_is answer) }
{
    matches!(answer, Err(Refusal::TooManyCommits))
}

// Whether a run stops at what a place shows.
pub fn stops_at(shown: Shown) -> bool
    ensures { StopPromise shown result }
{
    match shown {
        Shown::Asked { answer, .. } => is_too_many(answer),
        Shown::Nothing | Shown::NoStep { .. } => false,
    }
}
