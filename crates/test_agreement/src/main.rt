// Decide beside a graph search that has nothing in common with it: forward from the initial states, one state at a time, by a queue.
// Printed is how many generated tables of each verdict there were, and in how many the two agree in verdict and in the length of the path;
// at last a digest of decide's answers, whole. tests/expected/programs.py makes the same tables anew and works out what this must print.
#![tactic(auto)]

use call_decide::{Verdict, decide};
use core_refusals::Refusal;
use core_rounds::MAX_ALLOWANCE;
use core_state_set::{MAX_STATES, StateSet, WORD_BITS, WORDS};
use core_table::{MARKED_AT, RESTING_AT, ROWS_AT, STORE_WORDS};
use std::io;
use std::io::Stdout;
use test_support::{
    Table, digest, digest_all, digest_words, generate, groups_of, left_out, states_of, unchanged,
};

const TABLES: usize = 4000;

// ---- the search

fn holds(stdout: Stdout, store: &[u64], at: usize, s: usize) -> io::Result<bool> {
    if at < store.len() {
        if s < MAX_STATES {
            let i = at + s / WORD_BITS;
            if i < store.len() {
                return Ok((store[i] >> (s % WORD_BITS)) % 2 == 1);
            }
        }
    }
    left_out(stdout)?;
    Ok(false)
}

// The words of its row are all 0.
fn is_dead_end(stdout: Stdout, store: &[u64], s: usize) -> io::Result<bool> {
    let from = ROWS_AT + WORDS * (s % MAX_STATES);
    let to = from + WORDS;
    if to <= store.len() {
        return Ok(unchanged(&store[from..to], 0, 0));
    }
    left_out(stdout)?;
    Ok(false)
}

fn is_forbidden(stdout: Stdout, store: &[u64], s: usize) -> io::Result<bool> {
    if holds(stdout, store, MARKED_AT, s)? {
        return Ok(true);
    }
    if holds(stdout, store, RESTING_AT, s)? {
        return Ok(false);
    }
    is_dead_end(stdout, store, s)
}

// The states found so far in the order in which they were found, each with its steps from an initial state.
// kept: an array with its end: no heap
#[derive(Drop)]
struct Queue {
    visits: [(usize, usize); MAX_STATES],
    end: usize,
    found: [bool; MAX_STATES],
}

impl Queue {
    fn new() -> Queue {
        Queue {
            visits: [(0, 0); MAX_STATES],
            end: 0,
            found: [false; MAX_STATES],
        }
    }

    // A state put at the queue's end if it was never there.
    fn visit(&mut self, stdout: Stdout, s: usize, steps: usize) -> io::Result<()> {
        if s < MAX_STATES {
            if self.found[s] {
                return Ok(());
            }
            if self.end < MAX_STATES {
                self.found[s] = true;
                self.visits[self.end] = (s, steps);
                self.end += 1;
                return Ok(());
            }
        }
        left_out(stdout)
    }

    // The states of the set that begins at `place`, one after another.
    fn visit_set(
        &mut self,
        stdout: Stdout,
        t: Table,
        place: usize,
        steps: usize,
    ) -> io::Result<()> {
        for s in 0..t.n {
            if holds(stdout, t.store, place, s)? {
                self.visit(stdout, s, steps)?;
            }
        }
        Ok(())
    }

    // What the queue has at place i.
    fn visited(&self, i: usize) -> Option<(usize, usize)> {
        if i < self.end && i < MAX_STATES {
            return Some(self.visits[i]);
        }
        None
    }

    // The first forbidden state in the queue has the fewest steps.
    fn first_forbidden(&mut self, stdout: Stdout, t: Table) -> io::Result<Option<usize>> {
        self.visit_set(stdout, t, 0, 0)?;
        for i in 0..t.n {
            let Some((s, steps)) = self.visited(i) else {
                return Ok(None);
            };
            if is_forbidden(stdout, t.store, s)? {
                return Ok(Some(steps));
            }
            let row = ROWS_AT + WORDS * (s % MAX_STATES);
            self.visit_set(stdout, t, row, steps % MAX_STATES + 1)?;
        }
        Ok(None)
    }
}

// The fewest steps from an initial to a forbidden state.
fn search(stdout: Stdout, t: Table) -> io::Result<Option<usize>> {
    let mut queue = Queue::new();
    queue.first_forbidden(stdout, t)
}

// ---- the tallies

// How many tables have each verdict, in how many of them the search finds the same, and a digest of all answers.
#[derive(Clone, Copy, Default)]
struct Tallies {
    safe: usize,
    not_safe: usize,
    same_verdict: usize,
    same_length: usize,
    digest: usize,
}

fn more(tally: usize, counts: bool) -> usize {
    tally.wrapping_add(usize::from(counts))
}

impl Tallies {
    fn tally(&mut self, answer: Result<Verdict, Refusal>, found: Option<usize>) {
        match answer {
            Ok(Verdict::Safe { .. }) => {
                self.safe = more(self.safe, true);
                self.same_verdict = more(self.same_verdict, found.is_none());
            }
            Ok(Verdict::Unsafe { steps, .. }) => {
                self.not_safe = more(self.not_safe, true);
                self.same_verdict = more(self.same_verdict, found.is_some());
                self.same_length = more(self.same_length, found == Some(steps));
            }
            _ => {}
        }
    }
}

// kept: the verdict is a number here (0 safe, 1 unsafe, 2 undecided, 3 refused), as the stored digest has it in: a test's values don't change.
fn digest_numbers(d: usize, verdict: usize, count: usize, size: usize, steps: usize) -> usize {
    digest(digest(digest(digest(d, verdict), count), size), steps)
}

fn digest_answer(
    stdout: Stdout,
    d: usize,
    answer: Result<Verdict, Refusal>,
    path: &[u16],
) -> io::Result<usize> {
    match answer {
        Ok(Verdict::Safe { count, size, .. }) => Ok(digest_numbers(d, 0, count, size, 0)),
        Ok(Verdict::Unsafe { count, steps }) => {
            let e = digest_numbers(d, 1, count, 0, steps);
            match path.get(..=steps) {
                Some(states) => Ok(digest_all(e, states)),
                None => {
                    left_out(stdout)?;
                    Ok(e)
                }
            }
        }
        Ok(Verdict::Undecided { count }) => Ok(digest_numbers(d, 2, count, 0, 0)),
        Err(refusal) => Ok(digest_numbers(d, 3, usize::from(u8::from(refusal)), 0, 0)),
    }
}

// The invariant, or the empty set where there is none.
fn invariant_of(answer: Result<Verdict, Refusal>) -> StateSet {
    match answer {
        Ok(Verdict::Safe { invariant, .. }) => invariant,
        _ => StateSet::empty(),
    }
}

fn digest_set(d: usize, x: StateSet) -> usize {
    let words = x.words;
    digest_words(d, &words)
}

fn compare(
    stdout: Stdout,
    tallies: &mut Tallies,
    answer: Result<Verdict, Refusal>,
    path: &[u16],
    found: Option<usize>,
) -> io::Result<()> {
    tallies.tally(answer, found);
    let d = digest_answer(stdout, tallies.digest, answer, path)?;
    tallies.digest = digest_set(d, invariant_of(answer));
    Ok(())
}

fn try_one(
    stdout: Stdout,
    tallies: &mut Tallies,
    t: usize,
    store: &mut [u64],
    path: &mut [u16],
) -> io::Result<()> {
    generate(stdout, store, t)?;
    let table = Table::new(store, states_of(t), groups_of(t));
    let answer = decide(table.store, table.n, table.g, MAX_ALLOWANCE, path);
    compare(stdout, tallies, answer, path, search(stdout, table)?)
}

fn try_table(stdout: Stdout, tallies: &mut Tallies, t: usize) -> io::Result<()> {
    let mut store = [0u64; STORE_WORDS];
    let mut path = [0u16; MAX_STATES];
    try_one(stdout, tallies, t, &mut store, &mut path)
}

fn try_tables(stdout: Stdout) -> io::Result<Tallies> {
    let mut tallies = Tallies::default();
    for t in 0..TABLES {
        try_table(stdout, &mut tallies, t)?;
    }
    Ok(tallies)
}

fn main(rt: HostRuntime) -> io::Result<()> {
    let tallies = try_tables(rt.stdout())?;
    println!(rt; "tables {TABLES}")?;
    println!(rt; "safe {}", tallies.safe)?;
    println!(rt; "unsafe {}", tallies.not_safe)?;
    println!(rt; "same verdict {}", tallies.same_verdict)?;
    println!(rt; "same length of path {}", tallies.same_length)?;
    println!(rt; "digest of all answers {}", tallies.digest)
}
