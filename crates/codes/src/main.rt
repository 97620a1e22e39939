// Prints the page of step codes, as the fitters' manual has it, so that the desk's comparison is a `diff`. It reads nothing.
#![tactic(auto)]

ghost use Rattle.std.specs.Prelude.{OnOk};
ghost use Rattle.std.specs.Io.KnownBytes.{Appends};
ghost use Rattle.rules.specs.steps.Codes.{plain_sheet};
ghost use Rattle.manual.specs.Page.{codes_page};

use filters::Failed;
use std::io::Write;

// Puts the page into a buffer with room for all of it, and writes it.
fn print_page<W: Write>(rt: &HostRuntime, output: &mut W) -> Result<(), Failed>
    ensures { OnOk result (Appends (W.contents output.old) (W.contents output.new) (codes_page plain_sheet)) }
{
    let mut page = [0u8; manual::PAGE_BYTES];
    let long = manual::put_codes(&mut page);
    filters::write_front(rt, output, &page, long)
}

// Prints the page on standard output.
fn main(rt: HostRuntime) {
    let _ = print_page(&rt, &mut rt.stdout());
}
