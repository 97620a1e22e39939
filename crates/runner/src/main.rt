// Runs the schedule file on standard input and prints what `prints::run` says of it: a header, a line for each order place, then each
// cell, or a refused file's one line.
#![tactic(auto)]

use runs::Player;

// Answers what stands on standard input.
fn main(rt: HostRuntime) {
    let _ = piped::answer(&rt, Player::Register, &mut rt.stdin(), &mut rt.stdout());
}
