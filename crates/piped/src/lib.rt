// A schedule file from a reader to a writer: it is read to its end, and what is printed of it, by the register or by the judge, is
// written. Internal: called by our programs alone.
#![tactic(auto)]

ghost use Rattle.std.specs.Prelude.{◌≤◌, IfSome, OnOk, IsErrOf};
ghost use Rattle.std.specs.Io.KnownBytes.{Appends, Keeps};
ghost use Rattle.limits.specs.Limits.{most_printed};
ghost use Rattle.piped.specs.Texts.{text_of, TextPromise};

use filters::Failed;
use runs::Player;
use std::io::{Read, Write};

// Puts everything that is printed of a file into a buffer; how long that is.
fn put_text(player: Player, file: &[u8], buffer: &mut [u8]) -> usize
    ensures text_promise { TextPromise player file.now buffer.old result buffer.new }
    ensures upper_bound { result ≤ most_printed }
{
    match player {
        Player::Register => prints::run(file, buffer),
        Player::Judge => prints::judge(file, buffer),
    }
}

// Reads, runs or judges, and writes. One byte more than a file may have is read, so that a file that is too long is noticed.
// A file that can't be read is no answer: nothing is printed of it.
pub fn answer<R: Read, W: Write>(
    rt: &HostRuntime,
    player: Player,
    input: &mut R,
    output: &mut W,
) -> Result<(), Failed>
    ensures written { OnOk result (IfSome (R.remaining input.old) (λ bytes.
        Appends (W.contents output.old) (W.contents output.new) (text_of player bytes))) }
    ensures not_read { IsErrOf result Failed.NotRead → Keeps (W.contents output.old) (W.contents output.new) }
{
    let mut file = [0u8; filters::MOST_READ];
    let count = filters::read_file(rt, input, &mut file)?;
    let mut buffer = filters::room();
    let long = put_text(player, &file[..count], &mut buffer);
    filters::write_front(rt, output, &buffer, long)
}
