// The order in which the first round expands the states that it reaches: tables with circles, with groups, with nothing initial, without
// states, with a hang, a corridor whose states the groups tell apart, and refusals. tests/expected/programs.py works out what this must print, from the
// specification's text.
#![tactic(auto)]

ghost use Rattle.std.specs.Prelude.{◌/◌, ◌<◌};
ghost use Rattle.model.specs.Stores.{max_groups};

use call_first_order::first_order;
use core_fixpoints::Expanded;
use core_state_set::MAX_STATES;
use core_table::{MAX_GROUPS, STORE_WORDS};
use std::io;
use std::io::Stdout;
use test_support::{
    Table, group, initial, left_out, marked, numbers, put_table, refused, resting, step, unchanged,
};

// The states that are expanded; and whether a place behind them is not 0.
fn print_order(stdout: Stdout, found: Expanded) -> io::Result<()> {
    print!(stdout; "expands {}:", found.count)?;
    match found.states.get(..found.count) {
        Some(states) => numbers(stdout, states)?,
        None => left_out(stdout)?,
    }
    if !unchanged(&found.states, found.count, 0) {
        print!(stdout; " NOT 0")?;
    }
    Ok(())
}

fn try_one(stdout: Stdout, name: &str, table: Table) -> io::Result<()> {
    print!(stdout; "{name}: ")?;
    match first_order(table.store, table.n, table.g) {
        Ok(found) => print_order(stdout, found)?,
        Err(refusal) => refused(stdout, refusal)?,
    }
    println!(stdout)
}

// Two states that step to each other: with no group, their cover is all that is not forbidden.
fn circles(stdout: Stdout) -> io::Result<()> {
    let mut t = [0u64; STORE_WORDS];
    put_table(stdout, &mut t, b"0", b"2", b"01 10 22")?;
    try_one(stdout, "A", Table::new(&t, 3, 0))?;
    put_table(stdout, &mut t, b"", b"", b"21 12")?;
    group(stdout, &mut t, 0, 0)?;
    group(stdout, &mut t, 1, 1)?;
    try_one(stdout, "A with groups", Table::new(&t, 3, 2))
}

// Later passes bring lower states, two at a time, and states that are there already.
fn branches(stdout: Stdout) -> io::Result<()> {
    let mut t = [0u64; STORE_WORDS];
    put_table(
        stdout,
        &mut t,
        b"5",
        b"9",
        b"57 53 74 70 71 34 35 43 08 16 61 85",
    )?;
    for_each_alone(stdout, &mut t, 10)?;
    try_one(stdout, "branches", Table::new(&t, 10, 10))?;
    initial(stdout, &mut t, 1)?;
    try_one(stdout, "branches from two", Table::new(&t, 10, 10))?;
    group(stdout, &mut t, 3, 8)?;
    try_one(stdout, "branches, 3 with 8", Table::new(&t, 10, 10))
}

// Group s holds state s and no other.
fn for_each_alone(stdout: Stdout, store: &mut [u64], n: usize) -> io::Result<()> {
    for s in 0..n {
        group(stdout, store, s, s)?;
    }
    Ok(())
}

fn nothing_initial(stdout: Stdout) -> io::Result<()> {
    let mut t = [0u64; STORE_WORDS];
    try_one(stdout, "draft", Table::new(&t, 0, 0))?;
    try_one(stdout, "G", Table::new(&t, 1, 0))?;
    put_table(stdout, &mut t, b"", b"2", b"01 12")?;
    try_one(stdout, "nothing initial", Table::new(&t, 3, 0))?;
    initial(stdout, &mut t, 2)?;
    try_one(
        stdout,
        "only a forbidden state initial",
        Table::new(&t, 3, 0),
    )
}

// State 3 is a hang, and not expanded; resting, it is; marked as well, it is not.
fn hangs(stdout: Stdout) -> io::Result<()> {
    let mut t = [0u64; STORE_WORDS];
    put_table(stdout, &mut t, b"0", b"", b"01 12 23 44")?;
    for_each_alone(stdout, &mut t, 4)?;
    try_one(stdout, "B with groups, 3 not marked", Table::new(&t, 5, 4))?;
    resting(stdout, &mut t, 3)?;
    try_one(
        stdout,
        "B with groups, 3 not marked but resting",
        Table::new(&t, 5, 4),
    )?;
    marked(stdout, &mut t, 3)?;
    try_one(
        stdout,
        "B with groups, 3 marked and resting",
        Table::new(&t, 5, 4),
    )
}

// Two groups for each binary digit of a state, as many digits as there can be groups for: more than tell all states apart.
const DIGITS: usize = MAX_GROUPS / 2;

// State s in the group of its digit b, of the two groups that there are for it.
fn put_digit(stdout: Stdout, store: &mut [u64], s: usize, b: usize) -> io::Result<()>
    requires { b < max_groups / 2 }
{
    if s >> b & 1 == 1 {
        group(stdout, store, 2 * b + 1, s)?;
    } else {
        group(stdout, store, 2 * b, s)?;
    }
    Ok(())
}

fn put_digits(stdout: Stdout, store: &mut [u64], s: usize) -> io::Result<()> {
    for b in 0..DIGITS {
        put_digit(stdout, store, s, b)?;
    }
    Ok(())
}

// State 0 leads nowhere, so that it is a hang till it rests.
fn put_step_down(stdout: Stdout, store: &mut [u64], s: usize) -> io::Result<()> {
    if 0 < s {
        step(stdout, store, s, s - 1)?;
    }
    Ok(())
}

// From the last state down to state 0; the groups tell all of them apart.
fn put_corridor(stdout: Stdout, store: &mut [u64]) -> io::Result<()> {
    for s in 0..MAX_STATES {
        put_digits(stdout, store, s)?;
        put_step_down(stdout, store, s)?;
    }
    Ok(())
}

fn corridor(stdout: Stdout) -> io::Result<()> {
    let mut t = [0u64; STORE_WORDS];
    initial(stdout, &mut t, MAX_STATES - 1)?;
    put_corridor(stdout, &mut t)?;
    try_one(stdout, "corridor", Table::new(&t, MAX_STATES, MAX_GROUPS))?;
    resting(stdout, &mut t, 0)?;
    try_one(
        stdout,
        "corridor, state 0 resting",
        Table::new(&t, MAX_STATES, MAX_GROUPS),
    )?;
    try_one(
        stdout,
        "corridor, its last digit's groups not counted",
        Table::new(&t, MAX_STATES, MAX_GROUPS - 2),
    )
}

fn refusals(stdout: Stdout) -> io::Result<()> {
    let mut t = [0u64; STORE_WORDS];
    try_one(stdout, "draft with a group", Table::new(&t, 0, 1))?;
    try_one(
        stdout,
        "draft with a group too many",
        Table::new(&t, 0, MAX_GROUPS + 1),
    )?;
    put_table(stdout, &mut t, b"0", b"2", b"01 12")?;
    try_one(stdout, "n 0", Table::new(&t, 0, 0))?;
    try_one(stdout, "n 0 with a group", Table::new(&t, 0, 1))?;
    try_one(
        stdout,
        "a state too many",
        Table::new(&t, MAX_STATES + 1, 0),
    )?;
    try_one(
        stdout,
        "a group too many",
        Table::new(&t, 3, MAX_GROUPS + 1),
    )?;
    try_one(stdout, "state 2 of 2", Table::new(&t, 2, 0))?;
    try_one(
        stdout,
        "a group too many and state 2 of 2",
        Table::new(&t, 2, MAX_GROUPS + 1),
    )?;
    let mut at_rest = [0u64; STORE_WORDS];
    resting(stdout, &mut at_rest, 3)?;
    try_one(stdout, "state 3 of 3 resting", Table::new(&at_rest, 3, 0))?;
    let short = [0u64; STORE_WORDS - 1];
    try_one(
        stdout,
        "store one word short, n 0",
        Table::new(&short, 0, 0),
    )
}

fn main(rt: HostRuntime) -> io::Result<()> {
    let stdout = rt.stdout();
    circles(stdout)?;
    branches(stdout)?;
    nothing_initial(stdout)?;
    hangs(stdout)?;
    corridor(stdout)?;
    refusals(stdout)
}
