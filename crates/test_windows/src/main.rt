// Asks for the next open minute and prints the answers. The stored output was written by tests/expected/windows.py, which looks at one minute
// after the other on a calendar.
#![tactic(auto)]

use call_release_windows::{MAX_TIME, next_open};
use std::io;

// A window of `length` minutes from minute `start` of the week on.
fn window(start: u32, length: u32) -> u64 {
    u64::from(length) << 32 | u64::from(start)
}

// ---- one question

fn ask(
    rt: HostRuntime,
    name: &str,
    time: usize,
    windows: &[u64],
    closed: &[u32],
) -> io::Result<()> {
    match next_open(time, windows, closed) {
        Ok(Some(minute)) => println!(rt; "{name}: {minute}"),
        Ok(None) => println!(rt; "{name}: never"),
        // kept: test_support's `refused` is no plainer, as this crate stands on nothing of test_support.
        Err(refusal) => println!(rt; "{name}: refused {}", u8::from(refusal)),
    }
}

// With one window.
fn ask_one(
    rt: HostRuntime,
    name: &str,
    time: usize,
    start: u32,
    length: u32,
    closed: &[u32],
) -> io::Result<()> {
    let windows = [window(start, length)];
    ask(rt, name, time, &windows, closed)
}

// ---- the tests

// Saturday from 09:00 to 11:00.
fn edges_of_a_window(rt: HostRuntime) -> io::Result<()> {
    ask_one(rt, "before the first minute", 539, 540, 120, &[])?;
    ask_one(rt, "first minute", 540, 540, 120, &[])?;
    ask_one(rt, "last minute", 659, 540, 120, &[])?;
    ask_one(rt, "minute after the last", 660, 540, 120, &[])
}

// From Friday 22:40 to Saturday 02:00.
fn over_the_end(rt: HostRuntime) -> io::Result<()> {
    ask_one(rt, "begun in the week before minute 0", 0, 10000, 200, &[])?;
    ask_one(rt, "its last minute", 119, 10000, 200, &[])?;
    ask_one(rt, "after it", 120, 10000, 200, &[])?;
    ask_one(
        rt,
        "a whole week from its last minute on",
        5,
        10079,
        10080,
        &[],
    )
}

fn several(rt: HostRuntime) -> io::Result<()> {
    let windows = [window(9000, 10), window(3000, 10), window(6000, 10)];
    ask(rt, "the nearest of three", 4000, &windows, &[])?;
    ask(rt, "in none until next week", 9010, &windows, &[])
}

fn closed_days(rt: HostRuntime) -> io::Result<()> {
    ask_one(rt, "closed until Tuesday", 700, 0, 10080, &[0, 1, 2])?;
    ask_one(rt, "closed on the window's day", 0, 540, 120, &[0])?;
    ask_one(rt, "midnight in the middle", 1430, 1430, 20, &[0])?;
    ask_one(rt, "closed from midnight on", 1440, 1430, 20, &[1])?;
    ask_one(rt, "largest day number", 0, 540, 120, &[4294967295])?;
    ask_one(
        rt,
        "as minutes modulo 2^32 the same as day 0",
        0,
        540,
        120,
        &[134217728],
    )
}

// The days 7, 14, .., 448.
fn sevens() -> [u32; 64] {
    let mut days = [0u32; 64];
    for (i, day) in days.iter_mut().enumerate() {
        *day = (7 * i + 7) as u32;
    }
    days
}

fn longest_wait(rt: HostRuntime) -> io::Result<()> {
    let days = sevens();
    ask_one(rt, "64 closed days in a row of weeks", 1, 0, 1, &days)?;
    ask_one(rt, "the same in the minute of the window", 0, 0, 1, &days)?;
    ask_one(rt, "the same at the end of the span", 655200, 0, 1, &days)
}

fn far_times(rt: HostRuntime) -> io::Result<()> {
    ask_one(rt, "greatest time", MAX_TIME, 0, 10080, &[])?;
    ask_one(rt, "past the limit on times", MAX_TIME, 0, 1, &[])?;
    ask_one(rt, "time 2^31", 2147483648, 0, 10080, &[])?;
    ask_one(rt, "time 2^64 - 1", 18446744073709551615, 0, 10080, &[])
}

fn no_window(rt: HostRuntime) -> io::Result<()> {
    ask(rt, "no window", 0, &[], &[])?;
    ask(rt, "no window, 64 days", 0, &[], &[3; 64])?;
    ask(rt, "no window, 65 days", 0, &[], &[3; 65])
}

fn refused(rt: HostRuntime) -> io::Result<()> {
    ask_one(rt, "start 10080", 0, 10080, 1, &[])?;
    ask_one(rt, "length 0", 0, 0, 0, &[])?;
    ask_one(rt, "length 10081", 0, 0, 10081, &[])?;
    ask_one(rt, "one day 65 times", 0, 0, 1, &[5; 65])?;
    ask_one(rt, "one day 64 times", 0, 0, 1, &[0; 64])?;
    ask(rt, "32 windows", 10, &[window(7, 2); 32], &[])?;
    ask(rt, "33 windows", 10, &[window(7, 2); 33], &[])?;
    ask(rt, "33 windows outside", 10, &[window(0, 0); 33], &[])?;
    ask(
        rt,
        "33 windows outside, time 2^31",
        2147483648,
        &[window(0, 0); 33],
        &[],
    )
}

fn main(rt: HostRuntime) -> io::Result<()> {
    edges_of_a_window(rt)?;
    over_the_end(rt)?;
    several(rt)?;
    closed_days(rt)?;
    longest_wait(rt)?;
    far_times(rt)?;
    no_window(rt)?;
    refused(rt)
}
