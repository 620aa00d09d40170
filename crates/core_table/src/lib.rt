// The lent store (the specification, "The store"): its layout, the sets in it, and the acceptance test that the calls share.
//
//   set_at                       a set of the store
//   clear, put_set               0 in every word of a table; a set put into the store
//   any_stored_beyond            whether some of the store's sets have a state from n up
//   any_stored                   whether some of them have a state
//   non_zero_word                whether some of its words are not 0
//   Store                        the words of a table: a lent store that is long enough
//     initial                      its initial states
//   accept                       the store, or the first of the grounds 10, 14, 15 and 17 that holds
//
// What reads a table is lent a `Store`, which is long enough; `accept` asks for nothing.
#![tactic(auto)]

ghost use Rattle.std.specs.Prelude.{◌≡◌, ◌+◌, ◌*◌, ◌≤◌, not, ◌&&◌, eqb, length, IfOk};
ghost use Rattle.basics.specs.Bounds.{any};
ghost use Rattle.model.specs.Sets.{WORDS, max_states};
ghost use Rattle.basics.specs.Refusals.{refuse};
ghost use Rattle.core_refusals.specs.Refusals.{number_of};
ghost use Rattle.model.specs.Stores.{store_words, max_groups, set_at, beyond, non_zero, malformed, shared_grounds};
ghost use Rattle.core_table.specs.Joining.{union_of};
ghost use Rattle.core_table.specs.Writing.{overwrite_from, cleared};

use core_refusals::Refusal;
use core_state_set::{MAX_STATES, StateSet, WORDS};

pub const MAX_GROUPS: usize = 64;

// Initial, marked and resting, which stand before the groups.
pub const HEAD_SETS: usize = 3;

pub const INITIAL_AT: usize = 0;

pub const MARKED_AT: usize = WORDS;

pub const RESTING_AT: usize = 2 * WORDS;

pub const GROUPS_AT: usize = HEAD_SETS * WORDS;

pub const ROWS_AT: usize = (HEAD_SETS + MAX_GROUPS) * WORDS;

pub const STORE_WORDS: usize = (HEAD_SETS + MAX_GROUPS + MAX_STATES) * WORDS;

// The words of a table: a lent store that is long enough.
#[derive(Clone, Copy)]
pub struct Store<'a> {
    pub words: &'a [u64],
    ghost long: { store_words ≤ length words.now },
}

impl Store<'_> {
    pub fn initial(self) -> StateSet
        ensures { result.words ≡ set_at self.entry.words.now 0 }
    {
        set_at(self.words, INITIAL_AT)
    }
}

// The set whose words begin at `at`.
// kept: a slice with a place in it, here, in put_set and in call_replay, as the model's `set_at` has it
// kept: by place, as in put_set: tried `copy_from_slice`, which tests for an overlap: 50 instructions for 36. So decide, which reads 147,392 sets in a
// corridor of 512, would be over its bar of 1.5
pub fn set_at(store: &[u64], at: usize) -> StateSet
    requires { at + WORDS ≤ length store.now }
    ensures { result.words ≡ set_at store.now at }
{
    let mut words = [0; WORDS];
    for (w, word) in words.iter_mut().enumerate() {
        *word = store[at + w];
    }
    StateSet { words }
}

// The words of a table, those of unused groups and rows among them.
// kept: a Store is lent to be read; one lent to be written would be a second type, made anew at each call
pub fn clear(store: &mut [u64])
    requires { store_words ≤ length store.old }
    ensures { store.new ≡ cleared store.old }
{
    store[..STORE_WORDS].fill(0);
}

// A set into the words from `at` on.
pub fn put_set(store: &mut [u64], at: usize, x: StateSet)
    requires { at + WORDS ≤ length store.old }
    ensures { store.new ≡ overwrite_from at x.words store.old }
{
    for (w, word) in x.words.iter().enumerate() {
        store[at + w] = *word;
    }
}

// x has a state from n up. Where there are as many states as can be, x is not looked at.
fn is_beyond(x: StateSet, n: usize) -> bool
    ensures { result ≡ beyond n x.words }
{
    if MAX_STATES <= n {
        return false;
    }
    !x.is_subset(StateSet::first_states(n))
}

// The `count` sets that begin at `at`, joined: tested once, which the compiler does several words at a time.
// kept: at and count with the words, here and in the next two, and by place: their contracts are the model's of a store, by place
fn joined(store: &[u64], at: usize, count: usize) -> StateSet
    requires { at + WORDS * count ≤ length store.now }
    ensures { result.words ≡ union_of count (λ j. set_at store.now (at + WORDS * j)) }
{
    let mut out = StateSet::empty();
    for j in 0..count {
        out = out.union(set_at(store, at + WORDS * j));
    }
    out
}

// One of the `count` sets that begin at `at` has a state from n up. Where there are as many states as can be, they are not looked at.
pub fn any_stored_beyond(store: &[u64], at: usize, count: usize, n: usize) -> bool
    requires { at + WORDS * count ≤ length store.now }
    ensures { result ≡ any count (λ j. beyond n (set_at store.now (at + WORDS * j))) }
{
    if MAX_STATES <= n {
        return false;
    }
    is_beyond(joined(store, at, count), n)
}

// Some word of the `count` sets that begin at `at` is not 0.
pub fn any_stored(store: &[u64], at: usize, count: usize) -> bool
    requires { at + WORDS * count ≤ length store.now }
    ensures { result ≡ non_zero store.now at (at + WORDS * count) }
{
    !joined(store, at, count).is_empty()
}

// Some word from `from` on and before `to` is not 0. They are joined and tested once, which the compiler does several at a time.
// kept: beside non_zero_byte of file_contents_reading, for what stands there; and by from and to, as its contract in docs/DECISIONS.md, 28, has it
pub fn non_zero_word(store: &[u64], from: usize, to: usize) -> bool
    requires { (from ≤ to) × (to ≤ length store.now) }
    ensures { result ≡ non_zero store.now from to }
{
    store[from..to]
        .iter()
        .fold(0, |joined, word| joined | *word)
        != 0
}

// A 1 bit for a state from n up, or a word of an unused group or row not 0.
fn is_malformed(store: Store, n: usize, g: usize) -> bool
    requires { (n ≤ max_states) × (g ≤ max_groups) }
    ensures { result ≡ malformed store.entry.words.now n g }
{
    if is_beyond(store.initial(), n) {
        return true;
    }
    if is_beyond(set_at(store.words, MARKED_AT), n) {
        return true;
    }
    if is_beyond(set_at(store.words, RESTING_AT), n) {
        return true;
    }
    if any_stored_beyond(store.words, GROUPS_AT, g, n) {
        return true;
    }
    if any_stored_beyond(store.words, ROWS_AT, n, n) {
        return true;
    }
    if non_zero_word(store.words, GROUPS_AT + WORDS * g, ROWS_AT) {
        return true;
    }
    non_zero_word(store.words, ROWS_AT + WORDS * n, STORE_WORDS)
}

// Groups but no state.
fn is_groups_alone(n: usize, g: usize) -> bool
    ensures { result ≡ (eqb n 0 && not (eqb g 0)) }
{
    n == 0 && g != 0
}

// A store with n states and g groups, where it is accepted.
// kept: n and g as numbers, here and in the calls: each takes every n and g, and says which it refuses
pub fn accept(store: &[u64], n: usize, g: usize) -> Result<Store<'_>, Refusal>
    ensures { (number_of result ≡ refuse (shared_grounds store.now n g)) × IfOk result (λ held. held.words.now ≡ store.now) }
{
    if store.len() < STORE_WORDS {
        return Err(Refusal::StoreShort);
    }
    if MAX_STATES < n {
        return Err(Refusal::States);
    }
    if is_groups_alone(n, g) {
        return Err(Refusal::States);
    }
    if MAX_GROUPS < g {
        return Err(Refusal::Groups);
    }
    let store = Store { words: store };
    if is_malformed(store, n, g) {
        return Err(Refusal::StrayBit);
    }
    Ok(store)
}
