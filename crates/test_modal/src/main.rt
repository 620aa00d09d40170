// Tables with certain and possible steps through the call decide_modal: some of the specification's with a step more that is only possible, hangs by
// either kind of steps, a corridor; then refusals, their order and their edges. The possible steps are the rows of a second store.
// tests/expected/programs.py works out what this must print: it looks at every choice.
#![tactic(auto)]

ghost use Rattle.std.specs.Prelude.{◌*◌, ◌^◌, ◌<◌};

use call_modal::{ModalVerdict, POSSIBLE_WORDS, decide_modal};
use core_refusals::Refusal;
use core_state_set::{MAX_STATES, WORDS};
use core_table::{MAX_GROUPS, ROWS_AT, STORE_WORDS};
use std::io;
use std::io::Stdout;
use test_support::{
    ASKED, SHORT, Table, add, group, print_path, print_rest, put_corridor, put_table, refused,
    resting, states, step, unchanged,
};

// The answer, and how many places at the front of the path buffer it accounts for.
fn print_answer(
    stdout: Stdout,
    answer: Result<ModalVerdict, Refusal>,
    path: &[u16],
) -> io::Result<usize> {
    match answer {
        Ok(ModalVerdict::Safe { invariant, size }) => {
            print!(stdout; "safe invariant {size}:")?;
            states(stdout, invariant)?;
            Ok(0)
        }
        Ok(ModalVerdict::Unsafe { steps }) => {
            print!(stdout; "unsafe")?;
            print_path(stdout, steps, path)
        }
        Ok(
            ModalVerdict::Depends {
                invariant,
                size,
                steps,
            },
        ) => {
            print!(stdout; "depends invariant {size}:")?;
            states(stdout, invariant)?;
            print_path(stdout, steps, path)
        }
        Err(refusal) => {
            refused(stdout, refusal)?;
            Ok(0)
        }
    }
}

// One call, with a path buffer of so many sevens. (No array has 2^63 bytes.)
// kept: beside the same of the other tests: one for all would take the call and its printing as a closure, and is no plainer
fn try_one<const PLACES: usize>(
    stdout: Stdout,
    name: &str,
    table: Table,
    possible: &[u64],
) -> io::Result<()>
    requires { PLACES * 2 < 2 ^ 63 }
{
    let mut path = [7u16; PLACES];
    print!(stdout; "{name}: ")?;
    let answer = decide_modal(table.store, table.n, table.g, possible, &mut path);
    let written = print_answer(stdout, answer, &path)?;
    print_rest(
        stdout,
        "the rest",
        "unchanged",
        unchanged(&path, written, 7),
    )
}

// A table of at most ten states, without groups and resting states, and its possible steps.
fn small(
    stdout: Stdout,
    name: &str,
    n: usize,
    first: &[u8],
    last: &[u8],
    certain: &[u8],
    possible: &[u8],
) -> io::Result<()> {
    let mut must = [0u64; STORE_WORDS];
    put_table(stdout, &mut must, first, last, certain)?;
    let mut may = [0u64; STORE_WORDS];
    put_table(stdout, &mut may, b"", b"", possible)?;
    try_one::<ASKED>(stdout, name, Table::new(&must, n, 0), &may[ROWS_AT..])
}

fn small_tables(stdout: Stdout) -> io::Result<()> {
    small(stdout, "E", 3, b"0", b"2", b"00 12", b"00 12")?;
    small(stdout, "E with 01", 3, b"0", b"2", b"00 12", b"00 01 12")?;
    small(
        stdout,
        "E, 01 certain",
        3,
        b"0",
        b"2",
        b"00 01 12",
        b"00 01 12",
    )?;
    small(
        stdout,
        "B with 03",
        5,
        b"0",
        b"3",
        b"01 12 23 44",
        b"01 03 12 23 44",
    )?;
    small(
        stdout,
        "B, 12 possible",
        5,
        b"0",
        b"3",
        b"01 23 44",
        b"01 12 23 44",
    )?;
    small(stdout, "no step certain", 2, b"0", b"", b"", b"01 10")?;
    small(stdout, "a hang behind 01", 2, b"0", b"", b"", b"01")?;
    small(stdout, "an initial hang", 2, b"0", b"", b"", b"11")?;
    small(stdout, "F with 00", 1, b"0", b"0", b"", b"00")?;
    small(stdout, "draft", 0, b"", b"", b"", b"")
}

// The groups tell 0, 1 and 2 apart; 1 leads to the marked 3, or not, and to the resting 2.
fn groups_and_rest(stdout: Stdout) -> io::Result<()> {
    let mut must = [0u64; STORE_WORDS];
    put_table(stdout, &mut must, b"0", b"3", b"01")?;
    resting(stdout, &mut must, 2)?;
    group(stdout, &mut must, 0, 0)?;
    group(stdout, &mut must, 1, 1)?;
    group(stdout, &mut must, 2, 2)?;
    let mut may = [0u64; STORE_WORDS];
    put_table(stdout, &mut may, b"", b"", b"01 12")?;
    try_one::<ASKED>(stdout, "to rest", Table::new(&must, 4, 3), &may[ROWS_AT..])?;
    step(stdout, &mut may, 1, 3)?;
    try_one::<ASKED>(
        stdout,
        "to rest or 3",
        Table::new(&must, 4, 3),
        &may[ROWS_AT..],
    )?;
    step(stdout, &mut must, 1, 3)?;
    try_one::<ASKED>(stdout, "to 3", Table::new(&must, 4, 3), &may[ROWS_AT..])
}

fn clear(store: &mut [u64], at: usize) {
    if at < store.len() {
        store[at] = 0;
    }
}

// The last state is a hang. First each step is certain, then the last one possible, then it is not even that, and the state before it a hang.
fn corridor(stdout: Stdout) -> io::Result<()> {
    let mut must = [0u64; STORE_WORDS];
    put_corridor(stdout, &mut must)?;
    let mut may = [0u64; STORE_WORDS];
    put_corridor(stdout, &mut may)?;
    try_one::<ASKED>(
        stdout,
        "corridor",
        Table::new(&must, MAX_STATES, 0),
        &may[ROWS_AT..],
    )?;
    clear(&mut must, STORE_WORDS - WORDS - 1);
    try_one::<ASKED>(
        stdout,
        "corridor, the last step possible",
        Table::new(&must, MAX_STATES, 0),
        &may[ROWS_AT..],
    )?;
    clear(&mut may, STORE_WORDS - WORDS - 1);
    try_one::<ASKED>(
        stdout,
        "corridor without its last step",
        Table::new(&must, MAX_STATES, 0),
        &may[ROWS_AT..],
    )
}

// Each refusal with every later ground holding as well, then alone. The step from 0 to 1 is certain, and not possible; `stray` has state 5 too.
fn refusals(
    stdout: Stdout,
    store: &[u64],
    stray: &[u64],
    none: &[u64],
    far: &[u64],
) -> io::Result<()> {
    let states = MAX_STATES + 1;
    let groups = MAX_GROUPS + 1;
    try_one::<SHORT>(
        stdout,
        "n too great and all else",
        Table::new(stray, states, groups),
        far,
    )?;
    try_one::<SHORT>(stdout, "n 0 g 1 and all else", Table::new(stray, 0, 1), far)?;
    try_one::<SHORT>(
        stdout,
        "g too great and all else",
        Table::new(stray, 5, groups),
        far,
    )?;
    try_one::<SHORT>(
        stdout,
        "state 5 of 5 and all else",
        Table::new(stray, 5, 0),
        none,
    )?;
    try_one::<SHORT>(
        stdout,
        "state 5 of 5 possible and all else",
        Table::new(store, 5, 0),
        far,
    )?;
    try_one::<ASKED>(
        stdout,
        "state 5 of 5 possible",
        Table::new(store, 5, 0),
        far,
    )?;
    try_one::<SHORT>(
        stdout,
        "a certain step not possible and all else",
        Table::new(store, 6, 0),
        none,
    )?;
    try_one::<ASKED>(
        stdout,
        "a certain step not possible",
        Table::new(store, 6, 0),
        none,
    )?;
    try_one::<ASKED>(stdout, "a row of none", Table::new(none, 0, 0), far)
}

fn all_refusals(stdout: Stdout) -> io::Result<()> {
    let mut store = [0u64; STORE_WORDS];
    put_table(stdout, &mut store, b"0", b"", b"01")?;
    let mut stray = [0u64; STORE_WORDS];
    put_table(stdout, &mut stray, b"05", b"", b"01")?;
    let none = [0u64; STORE_WORDS];
    let mut far = [0u64; POSSIBLE_WORDS];
    add(stdout, &mut far, 0, 5)?;
    refusals(stdout, &store, &stray, &none, &far)
}

fn lengths(stdout: Stdout) -> io::Result<()> {
    let mut store = [0u64; STORE_WORDS];
    put_table(stdout, &mut store, b"0", b"", b"01")?;
    let short = [0u64; POSSIBLE_WORDS - 1];
    try_one::<SHORT>(
        stdout,
        "possible steps one word short and all else",
        Table::new(&store, MAX_STATES + 1, MAX_GROUPS + 1),
        &short,
    )?;
    let short_store = [0u64; STORE_WORDS - 1];
    let none = [0u64; POSSIBLE_WORDS];
    try_one::<ASKED>(
        stdout,
        "store one word short",
        Table::new(&short_store, 1, 0),
        &none,
    )?;
    let mut long = [0u64; POSSIBLE_WORDS + 3];
    long[POSSIBLE_WORDS] = 1;
    let empty = [0u64; STORE_WORDS];
    try_one::<ASKED>(stdout, "three words more", Table::new(&empty, 2, 0), &long)?;
    try_one::<SHORT>(
        stdout,
        "path buffer one place short",
        Table::new(&empty, 2, 0),
        &long,
    )
}

fn main(rt: HostRuntime) -> io::Result<()> {
    let stdout = rt.stdout();
    small_tables(stdout)?;
    groups_and_rest(stdout)?;
    corridor(stdout)?;
    all_refusals(stdout)?;
    lengths(stdout)
}
