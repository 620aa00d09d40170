// Walking a pump's log (docs/SPECIFICATION.md, "Replay"): the call `replay`.
//
//   entry_at, holds_at     one entry of a log; whether a set of the store holds a state
//   Walked, follow         the log followed from the initial states on: how many entries, and the states that they hold
//   Covered, coverage      whole percent and remainder of the states that can be reached
//   accept_log             the store, or the first of the grounds 10, 14, 15, 17, 25 and 26 that holds
//   Walk, replay           the call
#![tactic(auto)]

ghost use Rattle.std.specs.Prelude.{◌≡◌, ◌+◌, ◌*◌, ◌≤◌, ◌<◌, length, IfOk};
ghost use Rattle.model.specs.Sets.{WORDS, max_states, member};
ghost use Rattle.basics.specs.Refusals.{refuse};
ghost use Rattle.core_refusals.specs.Refusals.{number_of};
ghost use Rattle.model.specs.Stores.{set_at, table_of};
ghost use Rattle.call_replay.specs.Logs.{entry_bytes, entry, followed, seen, percent_of, remainder_of, replay_grounds};
ghost use Rattle.call_replay.specs.ReplayAnswers.{CalledReplay};

use core_reach::reached;
use core_refusals::Refusal;
use core_rows::Steps;
use core_state_set::{StateSet, WORD_BITS, WORDS};
use core_table::{ROWS_AT, Store, accept};

// The bytes of an entry, and the most that a log may have.
pub const ENTRY_BYTES: usize = 2;

pub const MAX_LOG: usize = 32768;

// Entry i of a log: a 16-bit number, low byte first.
// kept: le16_at of file_blocks again, in two lines: this crate stands on no crate of files
fn entry_at(log: &[u8], i: usize) -> usize
    requires { entry_bytes * i + 1 < length log.now }
    ensures { result ≡ entry log.now i }
{
    let at = ENTRY_BYTES * i;
    usize::from(u16::from_le_bytes([log[at], log[at + 1]]))
}

// The set whose words begin at `at` holds s: one word of it is read, and no copy made.
fn holds_at(store: &[u64], at: usize, s: usize) -> bool
    requires { at + WORDS ≤ length store.now }
    ensures { result ≡ member (set_at store.now at) s }
{
    let w = s / WORD_BITS;
    w < WORDS && store[at + w] >> (s % WORD_BITS) & 1 == 1
}

// What was followed of a log: how many entries, and the states that they hold.
#[derive(Clone, Copy)]
pub struct Walked {
    pub followed: usize,
    pub seen: StateSet,
}

// One pass over the log, up to the first entry that breaks the walk. The set at `at` has the states that the next entry may hold. The
// store is taken with all its rows: those of an accepted one are empty from n up. The bits are set in place, since a set that went in and
// came back for each entry would be most of the work.
fn follow(store: Store, log: &[u8]) -> Walked
    ensures { (result.followed ≡ followed (table_of store.entry.words.now max_states 0) log.now)
        × (result.seen.words ≡ seen log.now result.followed) }
{
    let mut at = 0;
    let mut words = [0; WORDS];
    let entries = log.len() / ENTRY_BYTES;
    for i in 0..entries {
        let s = entry_at(log, i);
        if !holds_at(store.words, at, s) {
            return Walked {
                followed: i,
                seen: StateSet { words },
            };
        }
        words[s / WORD_BITS] |= 1 << (s % WORD_BITS);
        at = ROWS_AT + WORDS * s;
    }
    Walked {
        followed: entries,
        seen: StateSet { words },
    }
}

#[derive(Clone, Copy)]
pub struct Covered {
    pub percent: usize,
    pub remainder: usize,
}

// 100 times the states, divided by those that can be reached; 0 remainder 0 if there are none.
fn coverage(states: usize, reached: usize) -> Covered
    requires { states ≤ max_states }
    ensures { (result.percent ≡ percent_of states reached) × (result.remainder ≡ remainder_of states reached) }
{
    if reached == 0 {
        return Covered {
            percent: 0,
            remainder: 0,
        };
    }
    let hundredfold = 100 * states;
    Covered {
        percent: hundredfold / reached,
        remainder: hundredfold % reached,
    }
}

// The store, where a log of so many bytes is accepted.
fn accept_log(store: &[u64], n: usize, g: usize, bytes: usize) -> Result<Store<'_>, Refusal>
    ensures { (number_of result ≡ refuse (replay_grounds store.now n g bytes)) × IfOk result (λ held. held.words.now ≡ store.now) }
{
    let store = accept(store, n, g)?;
    if bytes % ENTRY_BYTES != 0 {
        return Err(Refusal::LogOdd);
    }
    if MAX_LOG < bytes {
        return Err(Refusal::LogLong);
    }
    Ok(store)
}

// What the call answers: the entries followed, the different states among them, and the coverage.
#[derive(Clone, Copy, Debug, PartialEq, Eq)]
pub struct Walk {
    pub followed: usize,
    pub seen: usize,
    pub percent: usize,
    pub remainder: usize,
}

pub fn replay(store: &[u64], n: usize, g: usize, log: &[u8]) -> Result<Walk, Refusal>
    ensures { CalledReplay store.now n g log.now result }
{
    let store = accept_log(store, n, g, log.len())?;
    let walked = follow(store, log);
    let seen = walked.seen.count();
    let reached = reached(Steps::of(store), store.initial()).count();
    let covered = coverage(seen, reached);
    Ok(Walk {
        followed: walked.followed,
        seen,
        percent: covered.percent,
        remainder: covered.remainder,
    })
}
