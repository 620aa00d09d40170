// Tables A to H of the specification, some of them with states resting or no longer marked, and a ninth (which tells a list that is replaced from
// one that is added to) through the call decide, with allowances 0, 1, 2, 3 and the greatest; then refusals, their order and their edges.
// tests/expected/programs.py works out what this must print, from its text.
#![tactic(auto)]

ghost use Rattle.std.specs.Prelude.{◌*◌, ◌^◌, ◌<◌};

use call_decide::{Verdict, decide};
use core_refusals::Refusal;
use core_rounds::MAX_ALLOWANCE;
use core_state_set::MAX_STATES;
use core_table::{MAX_GROUPS, STORE_WORDS};
use std::io;
use std::io::Stdout;
use test_support::{
    ASKED, LONG, SHORT, Table, group, initial, marked, print_path, print_rest, put_corridor,
    put_table, refused, resting, states, step, unchanged,
};

// The answer, and how many places at the front of the path buffer it accounts for.
fn print_answer(
    stdout: Stdout,
    answer: Result<Verdict, Refusal>,
    path: &[u16],
) -> io::Result<usize> {
    match answer {
        Ok(
            Verdict::Safe {
                count,
                invariant,
                size,
            },
        ) => {
            print!(stdout; "safe {count} invariant {size}:")?;
            states(stdout, invariant)?;
            Ok(0)
        }
        Ok(Verdict::Unsafe { count, steps }) => {
            print!(stdout; "unsafe {count}")?;
            print_path(stdout, steps, path)
        }
        Ok(Verdict::Undecided { count }) => {
            print!(stdout; "undecided {count}")?;
            Ok(0)
        }
        Err(refusal) => {
            refused(stdout, refusal)?;
            Ok(0)
        }
    }
}

// One call, with a path buffer of so many sevens. (No array has 2^63 bytes.)
// kept: beside the same of the other tests: one for all would take the call and its printing as a closure, and is no plainer
fn try_one<const PLACES: usize>(
    stdout: Stdout,
    name: &str,
    table: Table,
    allowance: usize,
) -> io::Result<()>
    requires { PLACES * 2 < 2 ^ 63 }
{
    let mut path = [7u16; PLACES];
    print!(stdout; "{name} {allowance}: ")?;
    let answer = decide(table.store, table.n, table.g, allowance, &mut path);
    let written = print_answer(stdout, answer, &path)?;
    print_rest(
        stdout,
        "the rest",
        "unchanged",
        unchanged(&path, written, 7),
    )
}

fn try_allowances(stdout: Stdout, name: &str, table: Table) -> io::Result<()> {
    try_one::<ASKED>(stdout, name, table, 0)?;
    try_one::<ASKED>(stdout, name, table, 1)?;
    try_one::<ASKED>(stdout, name, table, 2)?;
    try_one::<ASKED>(stdout, name, table, 3)?;
    try_one::<LONG>(stdout, name, table, MAX_ALLOWANCE)
}

fn table_a(stdout: Stdout) -> io::Result<()> {
    let mut t = [0u64; STORE_WORDS];
    put_table(stdout, &mut t, b"0", b"2", b"01 10 22")?;
    try_allowances(stdout, "A", Table::new(&t, 3, 0))?;
    resting(stdout, &mut t, 0)?;
    resting(stdout, &mut t, 1)?;
    resting(stdout, &mut t, 2)?;
    try_allowances(stdout, "A, all resting", Table::new(&t, 3, 0))
}

fn table_b(stdout: Stdout) -> io::Result<()> {
    let mut t = [0u64; STORE_WORDS];
    put_table(stdout, &mut t, b"0", b"3", b"01 12 23 44")?;
    try_allowances(stdout, "B", Table::new(&t, 5, 0))?;
    group(stdout, &mut t, 0, 0)?;
    group(stdout, &mut t, 1, 1)?;
    group(stdout, &mut t, 2, 2)?;
    try_allowances(stdout, "D", Table::new(&t, 5, 3))
}

// Marked wins over resting.
fn table_b_resting(stdout: Stdout) -> io::Result<()> {
    let mut t = [0u64; STORE_WORDS];
    put_table(stdout, &mut t, b"0", b"3", b"01 12 23 44")?;
    resting(stdout, &mut t, 3)?;
    try_allowances(stdout, "B, 3 resting", Table::new(&t, 5, 0))
}

// State 3 is a hang, whatever other states rest.
fn table_b_not_marked(stdout: Stdout) -> io::Result<()> {
    let mut t = [0u64; STORE_WORDS];
    put_table(stdout, &mut t, b"0", b"", b"01 12 23 44")?;
    try_allowances(stdout, "B, 3 not marked", Table::new(&t, 5, 0))?;
    resting(stdout, &mut t, 0)?;
    resting(stdout, &mut t, 1)?;
    resting(stdout, &mut t, 2)?;
    resting(stdout, &mut t, 4)?;
    try_allowances(
        stdout,
        "B, 3 not marked, 0 1 2 4 resting",
        Table::new(&t, 5, 0),
    )
}

// No state is forbidden.
fn table_b_at_rest(stdout: Stdout) -> io::Result<()> {
    let mut t = [0u64; STORE_WORDS];
    put_table(stdout, &mut t, b"0", b"", b"01 12 23 44")?;
    resting(stdout, &mut t, 3)?;
    try_allowances(stdout, "B, 3 not marked but resting", Table::new(&t, 5, 0))
}

// Without its step from 0 to 0 it is unsafe where hold leaves out a state without successors.
fn table_e(stdout: Stdout) -> io::Result<()> {
    let mut t = [0u64; STORE_WORDS];
    put_table(stdout, &mut t, b"0", b"2", b"00 12")?;
    try_allowances(stdout, "E", Table::new(&t, 3, 0))?;
    let mut held = [0u64; STORE_WORDS];
    put_table(stdout, &mut held, b"0", b"2", b"12")?;
    resting(stdout, &mut held, 0)?;
    try_allowances(
        stdout,
        "E, 0 a dead end and resting",
        Table::new(&held, 3, 0),
    )
}

fn table_f(stdout: Stdout) -> io::Result<()> {
    let mut t = [0u64; STORE_WORDS];
    put_table(stdout, &mut t, b"0", b"0", b"")?;
    try_allowances(stdout, "F", Table::new(&t, 1, 0))?;
    let mut hang = [0u64; STORE_WORDS];
    initial(stdout, &mut hang, 0)?;
    try_allowances(stdout, "F, not marked", Table::new(&hang, 1, 0))?;
    resting(stdout, &mut hang, 0)?;
    try_allowances(stdout, "F, not marked but resting", Table::new(&hang, 1, 0))
}

fn table_g(stdout: Stdout) -> io::Result<()> {
    let t = [0u64; STORE_WORDS];
    try_allowances(stdout, "G", Table::new(&t, 1, 0))
}

// No states.
fn table_draft(stdout: Stdout) -> io::Result<()> {
    let t = [0u64; STORE_WORDS];
    try_allowances(stdout, "draft", Table::new(&t, 0, 0))
}

// The specification gives n and g of H alone. Here 58 leads to a forbidden state and shares a cover with the states that a session goes through, till a
// group parts them; all others are hangs.
fn table_h(stdout: Stdout) -> io::Result<()> {
    let mut t = [0u64; STORE_WORDS];
    initial(stdout, &mut t, 0)?;
    marked(stdout, &mut t, 60)?;
    step(stdout, &mut t, 0, 59)?;
    step(stdout, &mut t, 59, 0)?;
    step(stdout, &mut t, 58, 60)?;
    try_allowances(stdout, "H", Table::new(&t, 61, 0))?;
    group(stdout, &mut t, 0, 0)?;
    group(stdout, &mut t, 0, 59)?;
    try_allowances(stdout, "H with a group", Table::new(&t, 61, 1))
}

fn table_ninth(stdout: Stdout) -> io::Result<()> {
    let mut t = [0u64; STORE_WORDS];
    put_table(stdout, &mut t, b"0", b"2", b"00 01 13 23 30 32")?;
    group(stdout, &mut t, 0, 0)?;
    try_allowances(stdout, "ninth", Table::new(&t, 4, 1))
}

// Each refusal alone, then with every later ground holding as well. `stray` has one state, 5, in the initial set, `at_rest` in the resting one.
fn refusals(stdout: Stdout, empty: &[u64], stray: &[u64], at_rest: &[u64]) -> io::Result<()> {
    let states = MAX_STATES + 1;
    let groups = MAX_GROUPS + 1;
    let allowance = MAX_ALLOWANCE + 1;
    try_one::<ASKED>(stdout, "n 0 g 1", Table::new(empty, 0, 1), 0)?;
    try_one::<SHORT>(
        stdout,
        "n 0 with groups and all else",
        Table::new(stray, 0, groups),
        allowance,
    )?;
    try_one::<ASKED>(stdout, "state 5 of 0", Table::new(stray, 0, 0), 0)?;
    try_one::<ASKED>(stdout, "n too great", Table::new(empty, states, 0), 0)?;
    try_one::<SHORT>(
        stdout,
        "n too great and all else",
        Table::new(stray, states, groups),
        allowance,
    )?;
    try_one::<ASKED>(stdout, "g too great", Table::new(empty, 5, groups), 0)?;
    try_one::<SHORT>(
        stdout,
        "g too great and all else",
        Table::new(stray, 5, groups),
        allowance,
    )?;
    try_one::<ASKED>(stdout, "state 5 of 5", Table::new(stray, 5, 0), 0)?;
    try_one::<SHORT>(
        stdout,
        "state 5 of 5 and all else",
        Table::new(stray, 5, 0),
        allowance,
    )?;
    try_one::<ASKED>(stdout, "state 5 of 5 resting", Table::new(at_rest, 5, 0), 0)?;
    try_one::<ASKED>(
        stdout,
        "allowance too great",
        Table::new(empty, 5, 0),
        allowance,
    )?;
    try_one::<SHORT>(
        stdout,
        "allowance too great and all else",
        Table::new(empty, 5, 0),
        allowance,
    )?;
    try_one::<SHORT>(
        stdout,
        "path buffer one place short",
        Table::new(empty, 5, 0),
        0,
    )?;
    try_one::<ASKED>(
        stdout,
        "state 5 of 6",
        Table::new(stray, 6, 0),
        MAX_ALLOWANCE,
    )
}

fn short_store(stdout: Stdout) -> io::Result<()> {
    let mut short = [0u64; STORE_WORDS - 1];
    initial(stdout, &mut short, 5)?;
    try_one::<ASKED>(stdout, "store one word short", Table::new(&short, 6, 0), 0)?;
    try_one::<SHORT>(
        stdout,
        "store one word short and all else",
        Table::new(&short, 0, MAX_GROUPS + 1),
        MAX_ALLOWANCE + 1,
    )
}

fn whole_store(stdout: Stdout) -> io::Result<()> {
    let empty = [0u64; STORE_WORDS];
    let mut stray = [0u64; STORE_WORDS];
    initial(stdout, &mut stray, 5)?;
    let mut at_rest = [0u64; STORE_WORDS];
    resting(stdout, &mut at_rest, 5)?;
    refusals(stdout, &empty, &stray, &at_rest)?;
    initial(stdout, &mut at_rest, 5)?;
    try_one::<ASKED>(
        stdout,
        "state 5 of 6 resting",
        Table::new(&at_rest, 6, 0),
        MAX_ALLOWANCE,
    )
}

// A word past those of a table is not read.
fn long_store(stdout: Stdout) -> io::Result<()> {
    let mut long = [0u64; STORE_WORDS + 12];
    long[STORE_WORDS] = 1;
    try_one::<ASKED>(
        stdout,
        "n and g at their greatest, store of 12 words more",
        Table::new(&long, MAX_STATES, MAX_GROUPS),
        MAX_ALLOWANCE,
    )
}

// Entries and counts as great as they get: seen as one lump, the states are taken off one by one, from the last. Where that rests, all of them are
// the invariant.
fn corridor(stdout: Stdout) -> io::Result<()> {
    let mut t = [0u64; STORE_WORDS];
    put_corridor(stdout, &mut t)?;
    try_one::<ASKED>(
        stdout,
        "corridor",
        Table::new(&t, MAX_STATES, 0),
        MAX_ALLOWANCE,
    )?;
    try_one::<ASKED>(
        stdout,
        "corridor",
        Table::new(&t, MAX_STATES, 0),
        MAX_STATES - 3,
    )?;
    resting(stdout, &mut t, MAX_STATES - 1)?;
    try_one::<ASKED>(
        stdout,
        "corridor, the last state resting",
        Table::new(&t, MAX_STATES, 0),
        MAX_ALLOWANCE,
    )?;
    marked(stdout, &mut t, MAX_STATES - 1)?;
    try_one::<ASKED>(
        stdout,
        "corridor, the last state marked and resting",
        Table::new(&t, MAX_STATES, 0),
        MAX_ALLOWANCE,
    )
}

fn main(rt: HostRuntime) -> io::Result<()> {
    let stdout = rt.stdout();
    table_a(stdout)?;
    table_b(stdout)?;
    table_b_resting(stdout)?;
    table_b_not_marked(stdout)?;
    table_b_at_rest(stdout)?;
    table_e(stdout)?;
    table_f(stdout)?;
    table_g(stdout)?;
    table_draft(stdout)?;
    table_h(stdout)?;
    table_ninth(stdout)?;
    short_store(stdout)?;
    whole_store(stdout)?;
    long_store(stdout)?;
    corridor(stdout)
}
