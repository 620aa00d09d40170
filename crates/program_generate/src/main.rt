// The program `program_generate SEED STATES FANOUT`: writes the file of the table that a seed gives to standard output.
//
//   main             reads the words, calls and writes
//   usage            what is said where the words are not three numbers, the first of them a seed
//   Load, words      the load that the words ask for
//   is_word          whether the program has so many words
//   argument         one of the program's words
//   number_of        what a word says as a number
//   put_file         the file of a load at the front of a lent buffer; write_out: to standard output
//   say_refused      what is said where the load is refused
//
// A program has no status of its own: where anything goes wrong it says so on standard error.
#![tactic(auto)]

ghost use Rattle.std.specs.Prelude.{◌≡◌, ◌≤◌, IfOk};
ghost use Rattle.model.specs.Files.{max_file};
ghost use Rattle.file_writing.specs.WriteAnswers.{written_of};
ghost use Rattle.program_generate.specs.Words.{word_of};
ghost use Rattle.program_generate.specs.LoadFile.{file_made, file_buffer};

use call_generate::generate;
use core_refusals::Refusal;
use core_report::{ROOM, write_refused};
use core_table::STORE_WORDS;
use file_blocks::MAX_FILE;
use file_writing::write;
use std::env::{Env, FillError};
use std::io;
use std::io::{Stderr, Stdout};

// The site of the file that the program writes.
const SITE: usize = 0;

// Seeds are below 2^32.
const LIMIT: usize = 4294967296;

fn main(rt: HostRuntime) -> io::Result<()> {
    let stderr = rt.stderr();
    let Some(Load { seed, n, f }) = words(&rt) else {
        return usage(stderr);
    };
    let mut file = [0; MAX_FILE];
    match put_file(seed, n, f, &mut file) {
        Ok(length) => write_out(rt.stdout(), stderr, &file[..length]),
        Err(refusal) => say_refused(stderr, refusal),
    }
}

fn usage(stderr: Stderr) -> io::Result<()> {
    stderr.write_all(b"usage: generate SEED STATES FANOUT > FILE, where SEED is below 4294967296\n")
}

// ---- words

// A table to generate: its seed, number of states and fan-out.
struct Load {
    seed: u32,
    n: usize,
    f: usize,
}

// Three words that are numbers, the first of them a seed; else none.
fn words(env: &impl Env) -> Option<Load> {
    if is_word(env, 4) {
        return None;
    }
    let seed = argument(env, 1)?;
    let n = argument(env, 2)?;
    let f = argument(env, 3)?;
    if LIMIT <= seed {
        return None;
    }
    let seed = seed as u32;
    Some(Load { seed, n, f })
}

// Whether word i is there. Word 0 is the program's name.
fn is_word(env: &impl Env, i: usize) -> bool {
    !matches!(env.arg(i, &mut []), Err(FillError::NotPresent))
}

// A word that is missing, or longer than the buffer, is no number.
fn argument(env: &impl Env, i: usize) -> Option<usize> {
    let mut buffer = [0; 4096];
    match env.arg(i, &mut buffer) {
        Ok(length) => number_of(&buffer[..length]),
        Err(_) => None,
    }
}

// A number from the limit up is taken for the limit: nothing is cut.
fn number_of(word: &[u8]) -> Option<usize>
    ensures { result ≡ word_of word.now }
{
    if word.is_empty() {
        return None;
    }
    let mut value = 0;
    for b in word {
        if !b.is_ascii_digit() {
            return None;
        }
        value = LIMIT.min(10 * value + usize::from(*b - b'0'));
    }
    Some(value)
}

// ---- the file

// What generate filled, write writes.
fn put_file(seed: u32, n: usize, f: usize, out: &mut [u8; MAX_FILE]) -> Result<usize, Refusal>
    ensures file { (written_of result ≡ file_made n f) × (out.new ≡ file_buffer seed n f out.old) }
    ensures inside { IfOk result (λ l. l ≤ max_file) }
{
    let mut store = [0u64; STORE_WORDS];
    generate(seed, n, f, &mut store)?;
    write(&store, n, 0, SITE, out)
}

fn write_out(stdout: Stdout, stderr: Stderr, file: &[u8]) -> io::Result<()> {
    if stdout.write_all(file).is_ok() {
        return Ok(());
    }
    stderr.write_all(b"generate: the file could not be written\n")
}

fn say_refused(stderr: Stderr, refusal: Refusal) -> io::Result<()> {
    let mut text = [0u8; ROOM];
    let end = write_refused(u8::from(refusal), &mut text);
    stderr.write_all(&text[..end])
}
