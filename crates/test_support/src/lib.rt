// What the test programs share: tables put into a store, answers printed, buffers looked at.
//
//   Table                                     what a call is told of a table: a store, n and g
//   add, step, initial, marked, resting, group
//                                             a state put into a set of a store
//   put_table                                 a small table put into a store, given by the digits of its states
//   put_corridor                              the longest path that there can be
//   generate, states_of, groups_of            a generated table, its n and its g (generated.rt)
//   generate_largest                          one with as many states and groups as a store holds
//   states, numbers                           the states of a set, or numbers of any size, printed after spaces
//   print_path                                the path that a call wrote
//   refused                                   why a call was refused
//   ASKED, SHORT, LONG                        how long the path buffers of calls are
//   byte_at, put_byte                         one byte of a buffer, read and written
//   unchanged                                 whether each element from a place on is still the one given
//   print_rest                                such an answer, which ends a line
//   digest, digest_all, digest_words          a number that stands for what was taken into it, so that one number tells all of it
//
// Each function asks for nothing, so that the programs need hardly any proofs of their own. What does not fit is left out, and said.
#![tactic(auto)]

mod generated;

ghost use Rattle.std.specs.Prelude.{◌<◌, IfOk};

use core_refusals::Refusal;
use core_state_set::{MAX_STATES, StateSet, WORD_BITS, WORDS};
use core_table::{GROUPS_AT, MARKED_AT, MAX_GROUPS, RESTING_AT, ROWS_AT};
use generated::noise;
pub use generated::{generate, generate_largest, groups_of, states_of};
use std::io;
use std::io::Stdout;

// ---- what does not fit

// Said among what the program prints, where no expected output has it: nothing is left out silently.
pub fn left_out(stdout: Stdout) -> io::Result<()> {
    println!(stdout; "\nLEFT OUT")
}

// ---- tables

// What a call is told of a table.
#[derive(Clone, Copy)]
pub struct Table<'a> {
    pub store: &'a [u64],
    pub n: usize,
    pub g: usize,
}

impl<'a> Table<'a> {
    pub fn new(store: &'a [u64], n: usize, g: usize) -> Table<'a> {
        Table { store, n, g }
    }
}

// Bit i of the word `at` set.
// kept: stdout and the store apart, here and in the tests: a value of both would hold the store by &mut, and be made anew around each call
fn put_bit(stdout: Stdout, store: &mut [u64], at: usize, i: usize) -> io::Result<()> {
    if at < store.len() {
        store[at] |= 1 << (i % WORD_BITS);
    } else {
        left_out(stdout)?;
    }
    Ok(())
}

// State s put into the set that begins at `at`.
pub fn add(stdout: Stdout, store: &mut [u64], at: usize, s: usize) -> io::Result<()> {
    if s < MAX_STATES {
        if at < store.len() {
            put_bit(stdout, store, at + s / WORD_BITS, s % WORD_BITS)?;
            return Ok(());
        }
    }
    left_out(stdout)
}

pub fn initial(stdout: Stdout, store: &mut [u64], s: usize) -> io::Result<()> {
    add(stdout, store, 0, s)
}

pub fn marked(stdout: Stdout, store: &mut [u64], s: usize) -> io::Result<()> {
    add(stdout, store, MARKED_AT, s)
}

pub fn resting(stdout: Stdout, store: &mut [u64], s: usize) -> io::Result<()> {
    add(stdout, store, RESTING_AT, s)
}

pub fn group(stdout: Stdout, store: &mut [u64], j: usize, s: usize) -> io::Result<()> {
    if j < MAX_GROUPS {
        add(stdout, store, GROUPS_AT + WORDS * j, s)?;
    } else {
        left_out(stdout)?;
    }
    Ok(())
}

// kept: beside group: one function of both (tried) asks for bounds of where they begin and of how many there are
pub fn step(stdout: Stdout, store: &mut [u64], a: usize, b: usize) -> io::Result<()> {
    if a < MAX_STATES {
        add(stdout, store, ROWS_AT + WORDS * a, b)?;
    } else {
        left_out(stdout)?;
    }
    Ok(())
}

// The state that a digit names.
fn digit(b: u8) -> Option<usize> {
    Some(usize::from(b.checked_sub(b'0')?))
}

fn put_digits(stdout: Stdout, store: &mut [u64], at: usize, digits: &[u8]) -> io::Result<()> {
    for b in digits {
        match digit(*b) {
            Some(s) => add(stdout, store, at, s)?,
            None => left_out(stdout)?,
        }
    }
    Ok(())
}

// The two states of a step.
fn ends_of(pair: &[u8]) -> Option<(usize, usize)> {
    Some((digit(*pair.first()?)?, digit(*pair.get(1)?)?))
}

// A pair begins at each third place.
fn put_steps(stdout: Stdout, store: &mut [u64], pairs: &[u8]) -> io::Result<()> {
    for pair in pairs.chunks(3) {
        match ends_of(pair) {
            Some((a, b)) => step(stdout, store, a, b)?,
            None => left_out(stdout)?,
        }
    }
    Ok(())
}

// A table of at most ten states, without groups and resting states: its initial and its marked states, as b"03", and its steps, as b"01 12".
pub fn put_table(
    stdout: Stdout,
    store: &mut [u64],
    first: &[u8],
    last: &[u8],
    steps: &[u8],
) -> io::Result<()> {
    put_digits(stdout, store, 0, first)?;
    put_digits(stdout, store, MARKED_AT, last)?;
    put_steps(stdout, store, steps)
}

// Each of as many states as a table can have steps to the next; the last is a hang.
pub fn put_corridor(stdout: Stdout, store: &mut [u64]) -> io::Result<()> {
    initial(stdout, store, 0)?;
    for s in 0..MAX_STATES - 1 {
        step(stdout, store, s, s + 1)?;
    }
    Ok(())
}

// ---- printing

// The states of a set, each after a space.
pub fn states(stdout: Stdout, x: StateSet) -> io::Result<()> {
    for s in x.states() {
        print!(stdout; " {s}")?;
    }
    Ok(())
}

// Numbers, each after a space.
pub fn numbers<T: Copy + Into<usize>>(stdout: Stdout, xs: &[T]) -> io::Result<()> {
    for x in xs {
        let number: usize = (*x).into();
        print!(stdout; " {number}")?;
    }
    Ok(())
}

// The states of a path of so many steps, and how many places they take.
pub fn print_path(stdout: Stdout, steps: usize, path: &[u16]) -> io::Result<usize> {
    print!(stdout; " path")?;
    match path.get(..=steps) {
        Some(states) => {
            numbers(stdout, states)?;
            Ok(states.len())
        }
        None => {
            left_out(stdout)?;
            Ok(0)
        }
    }
}

pub fn refused(stdout: Stdout, refusal: Refusal) -> io::Result<()> {
    print!(stdout; "refused {}", u8::from(refusal))
}

// ---- buffers

// Places of a path buffer: as many as a call asks for, one fewer, and some more.
pub const ASKED: usize = MAX_STATES;

pub const SHORT: usize = MAX_STATES - 1;

pub const LONG: usize = MAX_STATES + 44;

pub fn byte_at(stdout: Stdout, buffer: &[u8], i: usize) -> io::Result<usize>
    ensures { IfOk result (λ x. x < 256) }
{
    if i < buffer.len() {
        return Ok(usize::from(buffer[i]));
    }
    left_out(stdout)?;
    Ok(0)
}

pub fn put_byte(stdout: Stdout, buffer: &mut [u8], i: usize, value: u8) -> io::Result<()> {
    if i < buffer.len() {
        buffer[i] = value;
    } else {
        left_out(stdout)?;
    }
    Ok(())
}

// Each element from `from` on is `value`.
pub fn unchanged<T: Copy + PartialEq>(buffer: &[T], from: usize, value: T) -> bool {
    buffer.iter().skip(from).all(|x| *x == value)
}

// Ends a line that told what a call did.
pub fn print_rest(stdout: Stdout, rest: &str, word: &str, same: bool) -> io::Result<()> {
    let found = if same { word } else { "CHANGED" };
    println!(stdout; ", {rest} {found}")
}

// ---- digests

// Digest d with the number x taken into it.
pub fn digest(d: usize, x: usize) -> usize {
    noise(d % 4294967296 + x % 4294967296)
}

// Each number of xs in its turn.
pub fn digest_all<T: Copy + Into<usize>>(d: usize, xs: &[T]) -> usize {
    let mut now = d;
    for x in xs {
        now = digest(now, (*x).into());
    }
    now
}

// kept: no plainer as one with digest_all, since a word goes in as two numbers, its lower and its upper half.
pub fn digest_words(d: usize, words: &[u64]) -> usize {
    let mut now = d;
    for word in words {
        now = digest(now, (*word % 4294967296) as usize);
        now = digest(now, (*word / 4294967296) as usize);
    }
    now
}
