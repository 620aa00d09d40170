// Runs the call shortest path on tables built here and prints what it answers, the states at the front of the path buffer, and whether the
// rest of the buffer is as before; then the calls distances and within, with every place of the distance buffer. The stored output was
// written by tests/expected/paths.py, a breadth-first search from the initial states made from the specification's text alone.
#![tactic(auto)]

ghost use Rattle.std.specs.Prelude.{◌*◌, ◌^◌, ◌<◌};

use call_distances::distances;
use call_paths::{shortest_path, within};
use core_refusals::Refusal;
use core_state_set::MAX_STATES;
use core_table::{MAX_GROUPS, STORE_WORDS};
use std::io;
use std::io::Stdout;
use test_support::{
    ASKED, LONG, SHORT, Table, group, initial, numbers, print_path, print_rest, put_corridor,
    put_table, refused, resting, unchanged,
};

// What the path buffers hold before a call.
const BEFORE: u16 = 238;

// ---- one call

// The answer, and how many places at the front of the path buffer it accounts for.
fn print_answer(
    stdout: Stdout,
    answer: Result<Option<usize>, Refusal>,
    path: &[u16],
) -> io::Result<usize> {
    match answer {
        Ok(Some(steps)) => {
            print!(stdout; "steps {steps},")?;
            print_path(stdout, steps, path)
        }
        Ok(None) => {
            print!(stdout; "none")?;
            Ok(0)
        }
        Err(refusal) => {
            refused(stdout, refusal)?;
            Ok(0)
        }
    }
}

// With a path buffer of so many places. (No array has 2^63 bytes.)
// kept: beside the same of the other tests: one for all would take the call and its printing as a closure, and is no plainer
fn report<const PLACES: usize>(stdout: Stdout, name: &str, table: Table) -> io::Result<()>
    requires { PLACES * 2 < 2 ^ 63 }
{
    let mut path = [BEFORE; PLACES];
    print!(stdout; "{name}: ")?;
    let answer = shortest_path(table.store, table.n, table.g, &mut path);
    let written = print_answer(stdout, answer, &path)?;
    print_rest(
        stdout,
        "rest",
        "untouched",
        unchanged(&path, written, BEFORE),
    )
}

// A table without groups, by the digits of its initial states, its marked states and its steps.
fn report_table(
    stdout: Stdout,
    name: &str,
    n: usize,
    first: &[u8],
    last: &[u8],
    steps: &[u8],
) -> io::Result<()> {
    let mut store = [0u64; STORE_WORDS];
    put_table(stdout, &mut store, first, last, steps)?;
    report::<ASKED>(stdout, name, Table::new(&store, n, 0))
}

// ---- the tests

fn put_b(stdout: Stdout, store: &mut [u64]) -> io::Result<()> {
    put_table(stdout, store, b"0", b"3", b"01 12 23 44")
}

fn put_d(stdout: Stdout, store: &mut [u64]) -> io::Result<()> {
    put_b(stdout, store)?;
    group(stdout, store, 0, 0)?;
    group(stdout, store, 1, 1)?;
    group(stdout, store, 2, 2)
}

fn table_d(stdout: Stdout) -> io::Result<()> {
    let mut store = [0u64; STORE_WORDS];
    put_d(stdout, &mut store)?;
    report::<ASKED>(stdout, "D", Table::new(&store, 5, 3))
}

fn worked(stdout: Stdout) -> io::Result<()> {
    report_table(stdout, "A", 3, b"0", b"2", b"01 10 22")?;
    report_table(stdout, "B", 5, b"0", b"3", b"01 12 23 44")?;
    table_d(stdout)?;
    report_table(stdout, "F", 1, b"0", b"0", b"")
}

fn pathless(stdout: Stdout) -> io::Result<()> {
    report_table(stdout, "no initial state", 2, b"", b"1", b"01")?;
    report_table(stdout, "no forbidden state", 2, b"0", b"", b"01 10")
}

// Two shortest paths: from 1 and from 2, while a longer one starts in 0; through 2 and through 3, while 1 leads back; to 3 and to 4, while 2
// leads only to itself. At last 2 is initial and forbidden, and 0 is initial and one step from it.
fn ties(stdout: Stdout) -> io::Result<()> {
    report_table(stdout, "two first states", 5, b"012", b"4", b"03 34 14 24")?;
    report_table(
        stdout,
        "two middle states",
        5,
        b"0",
        b"4",
        b"01 02 03 10 24 34",
    )?;
    report_table(stdout, "two last states", 5, b"0", b"34", b"01 12 13 14 22")?;
    report_table(stdout, "initial and forbidden", 3, b"02", b"2", b"02")
}

// The dead ends 2, 3 and 4 end a path as hangs, until 2 and then 3 rests; the marked 4 ends one though it rests. At last all states rest.
fn hangs(stdout: Stdout) -> io::Result<()> {
    let mut t = [0u64; STORE_WORDS];
    put_table(stdout, &mut t, b"0", b"4", b"01 12 13 14")?;
    report::<ASKED>(stdout, "three dead ends", Table::new(&t, 5, 0))?;
    resting(stdout, &mut t, 2)?;
    report::<ASKED>(stdout, "three dead ends, 2 resting", Table::new(&t, 5, 0))?;
    resting(stdout, &mut t, 3)?;
    resting(stdout, &mut t, 4)?;
    report::<ASKED>(stdout, "three dead ends, all resting", Table::new(&t, 5, 0))?;
    resting(stdout, &mut t, 0)?;
    resting(stdout, &mut t, 1)?;
    report::<ASKED>(
        stdout,
        "three dead ends, all states resting",
        Table::new(&t, 5, 0),
    )
}

// State 3 is a hang; then nothing is forbidden.
fn hang_of_b(stdout: Stdout) -> io::Result<()> {
    let mut t = [0u64; STORE_WORDS];
    put_table(stdout, &mut t, b"0", b"", b"01 12 23 44")?;
    report::<ASKED>(stdout, "B, 3 not marked", Table::new(&t, 5, 0))?;
    resting(stdout, &mut t, 3)?;
    report::<ASKED>(stdout, "B, 3 not marked but resting", Table::new(&t, 5, 0))
}

fn longest(stdout: Stdout) -> io::Result<()> {
    let mut store = [0u64; STORE_WORDS];
    put_corridor(stdout, &mut store)?;
    report::<ASKED>(stdout, "corridor", Table::new(&store, MAX_STATES, 0))?;
    report::<LONG>(
        stdout,
        "corridor, long buffer",
        Table::new(&store, MAX_STATES, MAX_GROUPS),
    )?;
    report::<SHORT>(
        stdout,
        "corridor, short buffer",
        Table::new(&store, MAX_STATES, 0),
    )?;
    resting(stdout, &mut store, MAX_STATES - 1)?;
    report::<ASKED>(
        stdout,
        "corridor, the last state resting",
        Table::new(&store, MAX_STATES, 0),
    )
}

fn edges_of(stdout: Stdout, b: &[u64]) -> io::Result<()> {
    report::<LONG>(stdout, "B, long buffer", Table::new(b, 5, 0))?;
    report::<SHORT>(stdout, "B, short buffer", Table::new(b, 5, 0))?;
    report::<ASKED>(stdout, "B, n 0", Table::new(b, 0, 0))?;
    report::<ASKED>(stdout, "B, n 0, g 1", Table::new(b, 0, 1))?;
    report::<ASKED>(stdout, "B, n too great", Table::new(b, MAX_STATES + 1, 0))?;
    report::<ASKED>(stdout, "B, n 4", Table::new(b, 4, 0))?;
    report::<ASKED>(stdout, "B, g at its greatest", Table::new(b, 5, MAX_GROUPS))?;
    report::<ASKED>(stdout, "B, g too great", Table::new(b, 5, MAX_GROUPS + 1))?;
    report::<SHORT>(
        stdout,
        "B, n and g too great, short buffer",
        Table::new(b, MAX_STATES + 1, MAX_GROUPS + 1),
    )?;
    report::<SHORT>(stdout, "B, n 4, short buffer", Table::new(b, 4, 0))
}

fn edges(stdout: Stdout) -> io::Result<()> {
    let mut store = [0u64; STORE_WORDS];
    put_b(stdout, &mut store)?;
    edges_of(stdout, &store)
}

fn short_store(stdout: Stdout) -> io::Result<()> {
    let store = [0u64; STORE_WORDS - 1];
    report::<SHORT>(
        stdout,
        "store one word short, n 0",
        Table::new(&store, 0, 0),
    )
}

// A state from n up: in an unused group, in the initial set, in the resting set, in a row.
fn malformed(stdout: Stdout) -> io::Result<()> {
    let mut d = [0u64; STORE_WORDS];
    put_d(stdout, &mut d)?;
    report::<ASKED>(stdout, "D, g 2", Table::new(&d, 5, 2))?;
    let mut b = [0u64; STORE_WORDS];
    put_b(stdout, &mut b)?;
    initial(stdout, &mut b, MAX_STATES - 1)?;
    report::<ASKED>(stdout, "B, the last state initial", Table::new(&b, 5, 0))?;
    let mut at_rest = [0u64; STORE_WORDS];
    put_b(stdout, &mut at_rest)?;
    resting(stdout, &mut at_rest, 5)?;
    report::<ASKED>(stdout, "B, 5 resting", Table::new(&at_rest, 5, 0))?;
    report_table(stdout, "B, 2 to 5", 5, b"0", b"3", b"01 12 23 44 25")
}

// ---- distances and within

// What the distance buffers hold before a call.
const NO_DISTANCE: u16 = 777;

fn print_distances(stdout: Stdout, answer: Result<(), Refusal>) -> io::Result<()> {
    match answer {
        Ok(()) => print!(stdout; "distances"),
        Err(refusal) => refused(stdout, refusal),
    }
}

fn print_within(stdout: Stdout, table: Table, k: usize) -> io::Result<()> {
    print!(stdout; ", within {k} ")?;
    match within(table.store, table.n, table.g, k) {
        Ok(true) => print!(stdout; "yes"),
        Ok(false) => print!(stdout; "no"),
        Err(refusal) => refused(stdout, refusal),
    }
}

// With a distance buffer of so many places.
// kept: beside the same of the other tests: one for all would take the call and its printing as a closure, and is no plainer
fn measure<const PLACES: usize>(stdout: Stdout, name: &str, table: Table) -> io::Result<()>
    requires { PLACES * 2 < 2 ^ 63 }
{
    let mut out = [NO_DISTANCE; PLACES];
    print!(stdout; "{name}: ")?;
    let answer = distances(table.store, table.n, table.g, &mut out);
    print_distances(stdout, answer)?;
    print!(stdout; ", buffer")?;
    numbers(stdout, &out)?;
    print_within(stdout, table, 0)?;
    print_within(stdout, table, 1)?;
    print_within(stdout, table, 3)?;
    print_within(stdout, table, 65535)?;
    println!(stdout)
}

// kept: beside report_table: one of both would take its last line as a closure, and is no plainer
fn measure_table(
    stdout: Stdout,
    name: &str,
    n: usize,
    first: &[u8],
    last: &[u8],
    steps: &[u8],
) -> io::Result<()> {
    let mut store = [0u64; STORE_WORDS];
    put_table(stdout, &mut store, first, last, steps)?;
    measure::<7>(stdout, name, Table::new(&store, n, 0))
}

// A circle that never leaves; a corridor with a dead end; a state that is both; nothing initial; nothing forbidden; two ways of different
// lengths.
fn measured(stdout: Stdout) -> io::Result<()> {
    measure_table(stdout, "A", 3, b"0", b"2", b"01 10 22")?;
    measure_table(stdout, "B", 5, b"0", b"3", b"01 12 23 44")?;
    measure_table(stdout, "F", 1, b"0", b"0", b"")?;
    measure_table(stdout, "no initial state", 2, b"", b"1", b"01")?;
    measure_table(stdout, "no forbidden state", 2, b"0", b"", b"01 10")?;
    measure_table(
        stdout,
        "a short and a long way",
        7,
        b"06",
        b"5",
        b"01 12 23 34 45 62 25",
    )
}

// B with 3 no longer marked, and with a sixth state, which nothing leads to: both are hangs, until they rest.
fn measured_hangs(stdout: Stdout) -> io::Result<()> {
    let mut t = [0u64; STORE_WORDS];
    put_table(stdout, &mut t, b"0", b"", b"01 12 23 44")?;
    measure::<7>(stdout, "B, 3 not marked, n 6", Table::new(&t, 6, 0))?;
    resting(stdout, &mut t, 5)?;
    measure::<7>(
        stdout,
        "B, 3 not marked, n 6, 5 resting",
        Table::new(&t, 6, 0),
    )?;
    measure::<7>(stdout, "B, 3 not marked, 5 resting", Table::new(&t, 5, 0))?;
    resting(stdout, &mut t, 3)?;
    measure::<7>(
        stdout,
        "B, 3 not marked, n 6, 3 5 resting",
        Table::new(&t, 6, 0),
    )
}

// The marked state rests, and so do those that have successors.
fn measured_resting(stdout: Stdout) -> io::Result<()> {
    let mut t = [0u64; STORE_WORDS];
    put_b(stdout, &mut t)?;
    resting(stdout, &mut t, 0)?;
    resting(stdout, &mut t, 3)?;
    resting(stdout, &mut t, 4)?;
    measure::<7>(stdout, "B, 0 3 4 resting", Table::new(&t, 5, 0))
}

fn measured_edges_of(stdout: Stdout, b: &[u64]) -> io::Result<()> {
    measure::<5>(stdout, "B, 5 places", Table::new(b, 5, 0))?;
    measure::<5>(stdout, "B, n 6, 5 places", Table::new(b, 6, 0))?;
    measure::<5>(stdout, "B, n 4, 3 groups, 5 places", Table::new(b, 4, 3))?;
    measure::<5>(stdout, "B, n 0", Table::new(b, 0, 0))?;
    measure::<5>(
        stdout,
        "B, n and g too great",
        Table::new(b, MAX_STATES + 1, MAX_GROUPS + 1),
    )?;
    measure::<5>(
        stdout,
        "B, n 6, g too great",
        Table::new(b, 6, MAX_GROUPS + 1),
    )
}

fn measured_edges(stdout: Stdout) -> io::Result<()> {
    let mut store = [0u64; STORE_WORDS];
    put_b(stdout, &mut store)?;
    measured_edges_of(stdout, &store)?;
    let short = [0u64; STORE_WORDS - 1];
    measure::<5>(
        stdout,
        "store one word short, n 0",
        Table::new(&short, 0, 0),
    )
}

fn main(rt: HostRuntime) -> io::Result<()> {
    let stdout = rt.stdout();
    worked(stdout)?;
    pathless(stdout)?;
    ties(stdout)?;
    hangs(stdout)?;
    hang_of_b(stdout)?;
    longest(stdout)?;
    edges(stdout)?;
    short_store(stdout)?;
    malformed(stdout)?;
    measured(stdout)?;
    measured_hangs(stdout)?;
    measured_resting(stdout)?;
    measured_edges(stdout)
}
