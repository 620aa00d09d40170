// The rows of a table (the specification, "Post, hold and covers"): what its states step to, and which of them step
// into a set alone.
//
//   Ones                         the places of a word's ones
//   Relation                     rows of either kind below, a set for each state
//     join_rows                    the rows of the states of a set, joined
//   Steps                        rows that are long enough: what the states step to
//     of, row                      those of a store; the set in a row
//     successors                   post: all successors of the states of a set
//     held_word, meet_hold         x meet hold(y), the states of a set whose every successor is in another: a word of it; all of it
//   forbidden_by, forbidden      the forbidden states of a store with given rows, and with its own
//   Rows, row_of, union_of       a row of words for each state, the set in one row, the union of the rows of a set's states
//
// What works on a table is lent its parts: the steps (of the store, or possible steps as they are lent), the groups
// (`&store.words[GROUPS_AT..]`), and sets by value.
#![tactic(auto)]

ghost use Rattle.std.specs.Prelude.{◌≡◌, ℕ, ◌≤◌, ◌<◌, length, get_or, []};
ghost use Rattle.model.specs.Sets.{WORDS, max_states, Set, subset, image};
ghost use Rattle.model.specs.Tables.{hangs as hangs·model};
ghost use Rattle.model.specs.Stores.{table_of};
ghost use Rattle.core_rows.specs.Rows.{rows_words, rows_of, row_in, rows_in, forbidden_by, successors_by, meet_hold};

use core_state_set::{MAX_STATES, StateSet, WORD_BITS, WORDS};
use core_table::{MARKED_AT, RESTING_AT, ROWS_AT, Store, set_at};

// The places of a word's ones, rising: an iterator, which has the ones that are left.
#[derive(Clone, Copy)]
pub struct Ones(pub u64);

impl Iterator for Ones {
    ghost use Rattle.std.specs.Iterator.{at_most};
    ghost use Rattle.core_rows.specs.Ones.{gives_lowest};

    type Item = usize;

    ghost next_gives = { λ old r new. gives_lowest old.0 r new.0 };

    ghost remaining = { λ ones. at_most ones.0 };

    fn next(&mut self) -> Option<usize> {
        if self.0 == 0 {
            return None;
        }
        let lowest = self.0.trailing_zeros() as usize;
        self.0 &= self.0 - 1;
        Some(lowest)
    }
}

// Rows that have a set for each state.
// kept: a state with its bound, here and where a row is taken: a type of it would be made anew at each turn of a loop
trait Relation: Copy {
    ghost row_in: { Self → ℕ → Set };

    fn row_at(self, s: usize) -> StateSet
        requires { s < max_states }
        ensures { result.words ≡ row_in self s };
}

// The rows of the states of x, joined.
// kept: word by word: tried `for s in x.states()`, and decide took 1.53 times the peer's time where it looks backward often; 1.5 is the bar
#[inline(always)]
fn join_rows<R: Relation>(rows: R, x: StateSet) -> StateSet
    ensures { result.words ≡ image max_states (R.row_in rows) x.words }
{
    let mut found = StateSet::empty();
    for w in 0..WORDS {
        for i in Ones(x.words[w]) {
            found = found.union(rows.row_at(WORD_BITS * w + i));
        }
    }
    found
}

// The steps of a table, or possible steps: a row of words for each state.
// kept: sets one behind the other in a slice, here and in a Store, as C lends them
#[derive(Clone, Copy)]
pub struct Steps<'a> {
    pub words: &'a [u64],
    ghost long: { rows_words ≤ length words.now },
}

impl<'a> Steps<'a> {
    // Those of the table that a store holds.
    pub fn of(store: Store<'a>) -> Self
        ensures { result.words.now ≡ rows_of store.entry.words.now }
    {
        Steps {
            words: &store.words[ROWS_AT..],
        }
    }

    // The successors of state s.
    pub fn row(self, s: usize) -> StateSet
        requires { s < max_states }
        ensures { result.words ≡ row_in self.entry.words.now s }
    {
        set_at(self.words, WORDS * s)
    }

    // All successors of states in x.
    #[inline(always)]
    pub fn successors(self, x: StateSet) -> StateSet
        ensures { result.words ≡ successors_by self.entry.words.now x.words }
    {
        join_rows(self, x)
    }

    // Every successor of s is in y.
    fn row_inside(self, s: usize, y: StateSet) -> bool
        requires { s < max_states }
        ensures { result ≡ subset (row_in self.entry.words.now s) y.words }
    {
        self.row(s).is_subset(y)
    }

    // Word w of x meet hold(y). The states are gathered in a number and not in a set, where each would be one word written and the whole set read again.
    pub fn held_word(self, x: StateSet, w: usize, y: StateSet) -> u64
        requires { w < WORDS }
        ensures { result ≡ get_or (meet_hold self.entry.words.now x.words y.words) w 0 }
    {
        let mut kept = 0;
        for i in Ones(x.words[w]) {
            if self.row_inside(WORD_BITS * w + i, y) {
                kept |= 1 << i;
            }
        }
        kept
    }

    // x meet hold(y)
    pub fn meet_hold(self, x: StateSet, y: StateSet) -> StateSet
        ensures { result.words ≡ meet_hold self.entry.words.now x.words y.words }
    {
        let mut words = [0; WORDS];
        for (w, word) in words.iter_mut().enumerate() {
            *word = self.held_word(x, w, y);
        }
        StateSet { words }
    }

    // The states below n without a successor that do not rest: screens with no way out.
    fn hangs(self, n: usize, resting: StateSet) -> StateSet
        ensures { result.words ≡ hangs·model n (rows_in self.entry.words.now n) resting.words }
    {
        let others = StateSet::first_states(n).difference(resting);
        self.meet_hold(others, StateSet::empty())
    }
}

impl Relation for Steps<'_> {
    ghost row_in = { λ steps. row_in steps.words.now };

    fn row_at(self, s: usize) -> StateSet {
        self.row(s)
    }
}

// The marked states, and those below n that hang by the rows: the one place that works out what is forbidden.
pub fn forbidden_by(store: Store, n: usize, steps: Steps) -> StateSet
    ensures { result.words ≡ forbidden_by store.entry.words.now n steps.entry.words.now }
{
    let hung = steps.hangs(n, set_at(store.words, RESTING_AT));
    set_at(store.words, MARKED_AT).union(hung)
}

// The forbidden states of a table with n states; its groups play no part.
pub fn forbidden(store: Store, n: usize) -> StateSet
    ensures { result.words ≡ (table_of store.entry.words.now n 0).forbidden }
{
    forbidden_by(store, n, Steps::of(store))
}

// One row of words for each state.
pub type Rows = [[u64; WORDS]; MAX_STATES];

pub fn row_of(rows: &Rows, s: usize) -> StateSet
    requires { s < max_states }
    ensures { result.words ≡ get_or rows.now s [] }
{
    StateSet { words: rows[s] }
}

impl Relation for &Rows {
    ghost row_in = { λ rows s. get_or rows.now s [] };

    fn row_at(self, s: usize) -> StateSet {
        row_of(self, s)
    }
}

// The union of the rows of the states of x.
pub fn union_of(rows: &Rows, x: StateSet) -> StateSet
    ensures { result.words ≡ image max_states (λ s. get_or rows.now s []) x.words }
{
    join_rows(rows, x)
}
