// Opens registers of several sizes and prints what is replied: K1 and K13 of docs/RULES.md.
#![tactic(auto)]

use limits::{MOST_CELLS, MOST_HANDLERS, REGISTER_WORDS};
use std::io;

// A word fewer than the largest register has.
const TOO_FEW: usize = REGISTER_WORDS - 1;

// Opens a register in a buffer and prints the reply.
fn opened(rt: &impl Print, words: &mut [u32], m: u32, n: u32) -> io::Result<()> {
    let long = words.len();
    match register::open(words, m, n) {
        Ok(()) => println!(rt; "{m} {n} {long} ready"),
        Err(refusal) => {
            let number = replies::refusal_number(refusal);
            println!(rt; "{m} {n} {long} refused {number}")
        }
    }
}

// Prints the words that a register needs.
fn needed(rt: &impl Print, m: u32, n: u32) -> io::Result<()> {
    match register::words_needed(m, n) {
        Some(count) => println!(rt; "{m} {n} {count} words"),
        None => println!(rt; "{m} {n} none"),
    }
}

// Opens registers in buffers that are long enough and too short, with numbers in range and out of it, and asks for lengths.
fn main(rt: HostRuntime) -> io::Result<()> {
    let mut enough = [7u32; 17];
    opened(&rt, &mut enough, 2, 1)?;
    let mut short = [7u32; 16];
    opened(&rt, &mut short, 2, 1)?;
    let mut largest = [7u32; REGISTER_WORDS];
    opened(&rt, &mut largest, MOST_CELLS, MOST_HANDLERS)?;
    let mut shorter = [7u32; TOO_FEW];
    opened(&rt, &mut shorter, MOST_CELLS, MOST_HANDLERS)?;
    let mut cells = [7u32; REGISTER_WORDS];
    opened(&rt, &mut cells, MOST_CELLS + 1, 1)?;
    let mut handlers = [7u32; REGISTER_WORDS];
    opened(&rt, &mut handlers, MOST_CELLS, MOST_HANDLERS + 1)?;
    let mut none = [7u32; REGISTER_WORDS];
    opened(&rt, &mut none, 0, 1)?;
    needed(&rt, 1, 1)?;
    needed(&rt, 2, 1)?;
    needed(&rt, MOST_CELLS, MOST_HANDLERS)?;
    needed(&rt, MOST_CELLS + 1, 1)?;
    needed(&rt, 1, 0)
}
