// The call `generate`: the table that a seed gives, put into a lent store (the specification, "A load that can be repeated").
//
//   generate                     the store is filled, or why the call is refused
//   accept_load                  refuses by the first of the grounds 10, 14 and 22 that holds
//   put_numbers                  the first numbers; put_start, put_sums: those before the first sum, and some sums
//   fill                         the table of some numbers put into the store
//   put_rows                     the row of each state
//   put_remainders               the numbers that a state takes, each modulo n
//   Divisor                      n, with what makes a division by it a multiplication
//     remainder                    a number modulo n
//
// n is the number of states and f the fan-out. The call, `generate`, asks for nothing.
#![tactic(auto)]

ghost use Rattle.std.specs.Prelude.{◌≡◌, ℕ, ◌+◌, ◌*◌, ◌/◌, ◌%◌, ◌^◌, ◌<◌, ◌≤◌, length, take};
ghost use Rattle.model.specs.Sets.{WORDS, max_states};
ghost use Rattle.basics.specs.Refusals.{refuse};
ghost use Rattle.core_refusals.specs.Refusals.{number_of};
ghost use Rattle.model.specs.Stores.{store_words, row_at, layout};
ghost use Rattle.model.specs.Calls.{overwrite};
ghost use Rattle.core_table.specs.Writing.{put_sets};
ghost use Rattle.call_generate.specs.Load.{long_lag, short_lag, numbers, remainders, successors, load_from, generate_grounds};
ghost use Rattle.call_generate.specs.GenerateAnswers.{CalledGenerate};

use core_refusals::Refusal;
use core_state_set::{MAX_STATES, StateSet, WORD_BITS, WORDS};
use core_table::{INITIAL_AT, MARKED_AT, ROWS_AT, STORE_WORDS, clear, put_set};

pub const MAX_FAN_OUT: usize = 16;

const SHORT_LAG: usize = 24;

// Also how many numbers come before the first sum.
const LONG_LAG: usize = 55;

const INCREMENT: u32 = 2654435769;

// The numbers of the largest load, LONG_LAG to start with and one for each of its successors, and what the last turn puts behind them.
const NUMBERS: usize = LONG_LAG + MAX_STATES * MAX_FAN_OUT + SHORT_LAG;

pub fn generate(seed: u32, n: usize, fan_out: usize, store: &mut [u64]) -> Result<(), Refusal>
    ensures { CalledGenerate seed n fan_out store.old result store.new }
{
    accept_load(n, fan_out, store.len())?;
    let count = LONG_LAG + n * fan_out;
    let mut numbers = [0u32; NUMBERS];
    put_numbers(seed, count, &mut numbers);
    fill(&numbers[..count], n, fan_out, store);
    Ok(())
}

// Whether a load is accepted where the store has `room` words.
fn accept_load(n: usize, f: usize, room: usize) -> Result<(), Refusal>
    ensures { number_of result ≡ refuse (generate_grounds n f room) }
{
    if room < STORE_WORDS {
        return Err(Refusal::StoreShort);
    }
    if n == 0 {
        return Err(Refusal::States);
    }
    if MAX_STATES < n {
        return Err(Refusal::States);
    }
    if MAX_FAN_OUT < f {
        return Err(Refusal::FanOut);
    }
    Ok(())
}

// ---- the numbers

// The first LONG_LAG numbers.
fn put_start(seed: u32, buffer: &mut [u32])
    requires { long_lag ≤ length buffer.old }
    ensures { take long_lag buffer.new ≡ numbers seed long_lag }
{
    let mut next = seed;
    for number in buffer[..LONG_LAG].iter_mut() {
        *number = next;
        next = std::num::wrapping_add_u32(next, INCREMENT);
    }
}

// The SHORT_LAG sums that follow the first `made` numbers. None of them is a term of another, so that the compiler adds four at a time.
fn put_sums(made: usize, buffer: &mut [u32])
    requires { (long_lag ≤ made) × (made + short_lag ≤ length buffer.old) }
    ensures { (seed : ℕ) → take made buffer.old ≡ numbers seed made → take (made + short_lag) buffer.new ≡ numbers seed (made + short_lag) }
{
    // kept: each sum is of two numbers before it in the buffer that is written, which an iterator over it does not lend
    for k in made..made + SHORT_LAG {
        buffer[k] = std::num::wrapping_add_u32(buffer[k - SHORT_LAG], buffer[k - LONG_LAG]);
    }
}

// The first `count` numbers. The last turn may put some more behind them.
fn put_numbers(seed: u32, count: usize, buffer: &mut [u32])
    requires { (long_lag ≤ count) × (count + short_lag ≤ length buffer.old) }
    ensures { take count buffer.new ≡ numbers seed count }
{
    put_start(seed, buffer);
    let mut made = LONG_LAG;
    // kept: no `step_by`, which is no plainer, and looks at each number between: 63,336 instructions for 53,080 in all of this, at 8,192 numbers (by
    // Rust's own 73,615)
    while made < count {
        put_sums(made, buffer);
        made += SHORT_LAG;
    }
}

// ---- the table

// kept: here and below, a Store is lent to be read; one lent to be written would be a second type, made anew at each call. And n with its bounds, which
// Divisor has: its n is a u64, to be turned back for the loop
fn fill(numbers: &[u32], n: usize, f: usize, store: &mut [u64])
    requires { (0 < n) × (n ≤ max_states) × (long_lag + n * f ≤ length numbers.now) × (store_words ≤ length store.old) }
    ensures { store.new ≡ overwrite (layout (load_from numbers.now n f)) store.old }
{
    clear(store);
    put_set(store, INITIAL_AT, StateSet::single(0));
    put_set(store, MARKED_AT, StateSet::single(n - 1));
    put_rows(numbers, n, f, store);
}

fn put_rows(numbers: &[u32], n: usize, f: usize, store: &mut [u64])
    requires { (0 < n) × (n ≤ max_states) × (long_lag + n * f ≤ length numbers.now) × (store_words ≤ length store.old) }
    ensures { store.new ≡ put_sets row_at (successors numbers.now n f) n store.old }
{
    let divisor = Divisor::of(n);
    for s in 0..n {
        let from = LONG_LAG + s * f;
        let end = from + f;
        let at = ROWS_AT + WORDS * s;
        put_remainders(&numbers[from..end], divisor, &mut store[at..]);
    }
}

// A number of states to divide by, and 2^32 divided by it.
#[derive(Clone, Copy)]
struct Divisor {
    n: u64,
    inverse: u64,
    ghost some: { 0 < n },
    ghost small: { n ≤ max_states },
    ghost inverted: { inverse ≡ 2 ^ 32 / n },
}

impl Divisor {
    fn of(n: usize) -> Self
        requires { (0 < n) × (n ≤ max_states) }
        ensures { result.n ≡ n }
    {
        let n = n as u64;
        Divisor {
            n,
            inverse: (1 << 32) / n,
        }
    }

    // x modulo n: a multiplication in place of a division, which would be most of the work. The quotient that it gives is at most one too small.
    fn remainder(self, x: u32) -> u64
        ensures { result ≡ x % self.n }
    {
        let x = u64::from(x);
        let quotient = x * self.inverse >> 32;
        let rest = x - quotient * self.n;
        if rest < self.n { rest } else { rest - self.n }
    }
}

// Some numbers, each modulo n, as a set in a row. The bits are set in the store itself, in words that are cleared for it: a set put together
// elsewhere would be read by wider words than it was written by, which is slow.
fn put_remainders(numbers: &[u32], divisor: Divisor, row: &mut [u64])
    requires { WORDS ≤ length row.old }
    ensures { row.new ≡ overwrite (remainders numbers.now divisor.n) row.old }
{
    put_set(row, 0, StateSet::empty());
    for x in numbers {
        let t = narrow(divisor.remainder(*x));
        row[t / WORD_BITS] |= 1 << (t % WORD_BITS);
    }
}

// A number of 64 bits as a place, in a function of its own: where a place has 32 bits it is looked at (scripts/portable).
// kept: `usize::try_from` gives an error, which never comes, to answer for: no plainer.
fn narrow(x: u64) -> usize
    ensures { result ≡ x }
{
    x as usize
}
