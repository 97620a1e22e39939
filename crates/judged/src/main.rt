// Judges the schedule file on standard input and prints what `prints::judge` says of it: the runner's format, from the judge alone. At
// a 65th commit the last line printed is that step's, `refused 33`.
#![tactic(auto)]

use runs::Player;

// Answers what stands on standard input.
fn main(rt: HostRuntime) {
    let _ = piped::answer(&rt, Player::Judge, &mut rt.stdin(), &mut rt.stdout());
}
