// Adds the schedule files that its arguments name to a duty sheet, one after another, and prints what comes of each: its name with `ok`,
// or with the number that it was refused with. Then it prints the sheet, a line for each handler.
// Where a file can't be opened or read, that is said on standard error; nothing of it is counted or printed, and the next file follows.
#![tactic(auto)]

ghost use Rattle.std.specs.Prelude.{◌≤◌, length};
ghost use Rattle.summary.specs.Texts.{longest_name};

use replies::Refusal;
use std::env::FillError;
use std::io::Read;
use std::rt::Env;
use std::{fs, str};

// Prints the line of a file, by one write.
fn print_added(rt: &HostRuntime, name: &[u8], added: Result<(), Refusal>)
    requires { length name.now ≤ longest_name }
{
    let mut printed = [0u8; summary::MOST_ADDED];
    let long = summary::put_added(&mut printed, name, added);
    let _ = filters::write_front(rt, &mut rt.stdout(), &printed, long);
}

// Adds a file that is open. One byte more than a file may have is read, so that a file that is too long is noticed.
fn add_open<R: Read>(rt: &HostRuntime, sheet: &mut [u32], input: &mut R, name: &[u8])
    requires { length name.now ≤ longest_name }
{
    let mut file = [0u8; filters::MOST_READ];
    let Ok(count) = filters::read_from(rt, input, name, &mut file) else {
        return;
    };
    let added = sheets::add_file(sheet, &file[..count]);
    print_added(rt, name, added);
}

// Adds the file of a path, which is its name as text.
fn add_path(rt: &HostRuntime, sheet: &mut [u32], path: &str)
    requires { length path.now ≤ longest_name }
{
    let name = path.as_bytes();
    match fs::open(rt, path) {
        Ok(input) => {
            let mut input = input;
            add_open(rt, sheet, &mut input, name);
        }
        Err(error) => filters::say(rt, name, error),
    }
}

// Adds the file of a name. A file is opened by a path of UTF-8 alone, so of another name that is said.
fn add_named(rt: &HostRuntime, sheet: &mut [u32], name: &[u8])
    requires { length name.now ≤ longest_name }
{
    match str::from_utf8(name) {
        Ok(path) => add_path(rt, sheet, path),
        Err(error) => filters::say(rt, name, error),
    }
}

// Adds the file that an argument names; whether there is such an argument. Of one that is too long for a name, its first bytes are said.
fn add_argument(rt: &HostRuntime, sheet: &mut [u32], i: usize) -> bool {
    let mut name = [0u8; summary::LONGEST_NAME];
    match rt.arg(i, &mut name) {
        Ok(long) => add_named(rt, sheet, &name[..long]),
        Err(FillError::TooLong) => filters::say(rt, &name, "File name too long"),
        Err(FillError::NotPresent) => return false,
    }
    true
}

// Adds the files of all arguments, in order; the first argument is the program's own name.
fn add_arguments(rt: &HostRuntime, sheet: &mut [u32]) {
    for i in 1..usize::MAX {
        if !add_argument(rt, sheet, i) {
            break;
        }
    }
}

// Adds, and prints the sheet.
fn main(rt: HostRuntime) {
    let mut sheet = [0u32; limits::SHEET_WORDS];
    add_arguments(&rt, &mut sheet);
    let mut printed = [0u8; summary::MOST_SUMMARY];
    let long = summary::put_sheet(&sheet, &mut printed);
    let _ = filters::write_front(&rt, &mut rt.stdout(), &printed, long);
}
