// Generated tables, numbered from 0 on. tests/expected/programs.py makes them anew from this comment.
//
// noise(x) is y xor y / 65536, where y = (1664525 x + 1013904223) modulo 2^32, and draw(t, p) is noise of noise of noise of P t + p, where
// P is 32 for each state that a table can have, more than the places p of any table. A number is taken modulo 2^32 here only to be seen to
// fit: noise takes it so itself.
// Table t, where d(p) is `draw(t, p)`:
//   states              n = 1 + d(0) % 40, or 1 + d(0) % m if 37 divides t, where m is the greatest n
//   groups              d(1) % 5
//   initial states      (5 + d(2) % 13) / 6 of the states d(3) % n, d(4) % n
//   marked states       (5 + d(5) % 13) / 6 of the states d(6) % n, d(7) % n
//   of state s, with p = 16 + 16 * s
//     successors        none if 4 divides d(p), otherwise d(8) % 4 of those drawn at p + 1, p + 2, p + 3: if t is even the state d % n,
//                       otherwise, for longer paths, (s + d % 6) % n
//     in group j        if d(p + 4 + j) is even
//     resting           if d(9) % 4 is 1, where d(p + 8) is even; if it is 2 or 3, where the state has no successors; if it is 0, never
//
// kept: t, a state and a place apart in each function: all is drawn anew from these numbers, and a type of them would hold nothing else
//
// The largest table has as many states and groups as a store holds, and each word of its store is drawn: word i is 2^32 draw(0, 2 i) +
// draw(0, 2 i + 1).
ghost use Rattle.std.specs.Prelude.{◌+◌, ◌*◌, ◌≤◌, ◌<◌};

use crate::{add, group, left_out, resting, step};
use core_state_set::MAX_STATES;
use core_table::{MARKED_AT, STORE_WORDS};
use std::io;
use std::io::Stdout;

// More than the places of any table.
const PLACES: usize = 32 * MAX_STATES;

// One number from another, below 2^32.
pub fn noise(x: usize) -> usize {
    let y = (x % 4294967296 * 1664525 + 1013904223) % 4294967296;
    y ^ (y / 65536)
}

// The number at a place of table t.
fn draw(t: usize, place: usize) -> usize {
    noise(noise(noise(t % 4294967296 * PLACES + place % 4294967296)))
}

pub fn states_of(t: usize) -> usize
    ensures { 0 < result }
{
    if t % 37 == 0 {
        1 + draw(t, 0) % MAX_STATES
    } else {
        1 + draw(t, 0) % 40
    }
}

pub fn groups_of(t: usize) -> usize
    ensures { result < 5 }
{
    draw(t, 1) % 5
}

fn draw_state(t: usize, place: usize) -> usize {
    draw(t, place) % states_of(t)
}

// Where the draws of state s begin.
fn place_of(s: usize) -> usize
    ensures { result ≤ 16 + 16 * 4294967295 }
{
    16 + 16 * (s % 4294967296)
}

// None at times, otherwise one or two.
fn few(t: usize, place: usize) -> usize
    ensures { result ≤ 2 }
{
    (5 + draw(t, place) % 13) / 6
}

// A few states put into the set that begins at `at`, drawn at the places behind that of their number.
fn put_few(stdout: Stdout, store: &mut [u64], at: usize, t: usize, place: usize) -> io::Result<()>
    requires { place < 16 }
{
    for i in 0..few(t, place) {
        add(stdout, store, at, draw_state(t, place + 1 + i))?;
    }
    Ok(())
}

fn put_ends(stdout: Stdout, store: &mut [u64], t: usize) -> io::Result<()> {
    put_few(stdout, store, 0, t, 2)?;
    put_few(stdout, store, MARKED_AT, t, 5)
}

fn fan_out(t: usize, p: usize) -> usize
    ensures { result < 4 }
{
    if draw(t, p) % 4 == 0 {
        return 0;
    }
    draw(t, 8) % 4
}

fn successor(t: usize, p: usize, s: usize) -> usize {
    if t % 2 == 0 {
        return draw_state(t, p);
    }
    (s % 4294967296 + draw(t, p) % 6) % states_of(t)
}

fn put_successors(stdout: Stdout, store: &mut [u64], t: usize, s: usize) -> io::Result<()> {
    let p = place_of(s);
    for i in 0..fan_out(t, p) {
        step(stdout, store, s, successor(t, p + 1 + i, s))?;
    }
    Ok(())
}

fn put_in_groups(stdout: Stdout, store: &mut [u64], t: usize, s: usize) -> io::Result<()> {
    let p = place_of(s);
    for j in 0..groups_of(t) {
        if draw(t, p + 4 + j) % 2 == 0 {
            group(stdout, store, j, s)?;
        }
    }
    Ok(())
}

fn rests(t: usize, s: usize) -> bool {
    let p = place_of(s);
    let kind = draw(t, 9) % 4;
    if kind == 0 {
        return false;
    }
    if kind == 1 {
        return draw(t, p + 8) % 2 == 0;
    }
    fan_out(t, p) == 0
}

fn put_state(stdout: Stdout, store: &mut [u64], t: usize, s: usize) -> io::Result<()> {
    put_successors(stdout, store, t, s)?;
    put_in_groups(stdout, store, t, s)?;
    if rests(t, s) {
        resting(stdout, store, s)?;
    }
    Ok(())
}

// Table t put into a store that holds zeros.
pub fn generate(stdout: Stdout, store: &mut [u64], t: usize) -> io::Result<()> {
    put_ends(stdout, store, t)?;
    for s in 0..states_of(t) {
        put_state(stdout, store, t, s)?;
    }
    Ok(())
}

// Word i of the largest table.
fn draw_word(i: usize) -> u64 {
    let p = 2 * (i % 4294967296);
    let high = draw(0, p) % 4294967296;
    (high * 4294967296 + draw(0, p + 1) % 4294967296) as u64
}

pub fn generate_largest(stdout: Stdout, store: &mut [u64]) -> io::Result<()> {
    if store.len() < STORE_WORDS {
        left_out(stdout)?;
    }
    for (i, word) in store.iter_mut().take(STORE_WORDS).enumerate() {
        *word = draw_word(i);
    }
    Ok(())
}
