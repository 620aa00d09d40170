// The contents of a file, which stand joined in a buffer: grounds 17 and 18, which concern its sets and its filler, and its table put into the store.
//
//   any_content_beyond, is_set_beyond    ground 17, of all sets and of one
//   non_zero_byte                        ground 18
//   fill, fill_sets, fill_set            the table put into the store: its three parts; the sets of a part; one set
//   word_in                              a word of a set in the contents
#![tactic(auto)]

ghost use Rattle.std.specs.Prelude.{◌≡◌, ◌+◌, ◌*◌, ◌≤◌, ◌<◌, length, get_or};
ghost use Rattle.basics.specs.Bounds.{any, concat};
ghost use Rattle.model.specs.Sets.{WORDS, meet};
ghost use Rattle.model.specs.Stores.{store_words, layout, beyond, non_zero};
ghost use Rattle.model.specs.Contents.{heads, set_width, header_bytes, set_in, set_number, dialogue_in};
ghost use Rattle.model.specs.Calls.{overwrite};
ghost use Rattle.file_blocks.specs.Forms.{form_of, joined_room};
ghost use Rattle.file_contents_reading.specs.Parts.{PartInside, part_set};

use core_state_set::{MAX_STATES, StateSet, WORDS};
use core_table::{GROUPS_AT, HEAD_SETS, MAX_GROUPS, ROWS_AT, put_set};
use file_blocks::{Counts, Form, HEADER, head_sets};

// ---- grounds of the contents

// A set of the table has a state from n up.
// kept: bytes with their room, and counts beside them, here and below: an array would refuse longer ones, which the clause takes
pub fn any_content_beyond(form: Form, bytes: &[u8], counts: Counts) -> bool
    requires { (joined_room ≤ length bytes.now) × (0 < counts.n) }
    ensures { result ≡ any (heads (form_of form) + counts.g + counts.n) (λ k. beyond counts.n (set_number bytes.now counts.n k)) }
{
    // kept: by a loop: the closure of `any` would have a contract of its own, and is no plainer
    for k in 0..counts.set_count(form) {
        if is_set_beyond(bytes, counts, k) {
            return true;
        }
    }
    false
}

// Set k of the contents has a state from n up: those are in the last of its bytes.
fn is_set_beyond(bytes: &[u8], counts: Counts, k: usize) -> bool
    requires { (header_bytes + set_width counts.n * k + 8 * WORDS ≤ length bytes.now) × (0 < counts.n) }
    ensures { result ≡ beyond counts.n (set_number bytes.now counts.n k) }
{
    let width = counts.set_width();
    let last = usize::from(bytes[HEADER + width * k + (width - 1)]);
    last >> (counts.n - 8 * (width - 1)) != 0
}

// Some byte is not 0. They are joined and tested once, as the words of a store are.
// kept: non_zero_word of core_table again: one of both would need a trait whose law says what `|` does, and is no plainer. (Tried over `Into<u64>`: bytes
// are joined as words then, 966 instructions for the 153 of 400 bytes.)
pub fn non_zero_byte(bytes: &[u8]) -> bool
    ensures { result ≡ non_zero bytes.now 0 (length bytes.now) }
{
    bytes.iter().fold(0, |joined, byte| joined | *byte) != 0
}

// ---- filling

// The sets before the groups, the groups and the rows: of each part of the store its first sets come from the contents, and the others are empty.
// kept: a Store is lent to be read; one lent to be written would be a second type, made anew at each call
pub fn fill(form: Form, bytes: &[u8], counts: Counts, store: &mut [u64])
    requires { (joined_room ≤ length bytes.now) × (store_words ≤ length store.old) }
    ensures { store.new ≡ overwrite (layout (dialogue_in (form_of form) bytes.now counts.n counts.g)) store.old }
{
    let n = counts.n;
    let g = counts.g;
    let heads = head_sets(form);
    let rows = heads + g;
    fill_sets(store, bytes, counts, 0, heads, HEAD_SETS);
    fill_sets(&mut store[GROUPS_AT..], bytes, counts, heads, g, MAX_GROUPS);
    fill_sets(&mut store[ROWS_AT..], bytes, counts, rows, n, MAX_STATES);
}

// A part of the store that has room for `room` sets: the first `count` are those of the contents from set `first` on, and the others are empty. Each of
// the first is put into its own words: the part of the store from there on is lent, from ROWS_AT + WORDS * s on for the row of state s, to be filled from the set's bytes.
// kept: room beside the part, as the clause asks for no exact length
fn fill_sets(
    part: &mut [u64],
    bytes: &[u8],
    counts: Counts,
    first: usize,
    count: usize,
    room: usize,
)
    requires { PartInside bytes.now first count × (WORDS * room ≤ length part.old) }
    ensures { part.new ≡ overwrite (concat room (part_set bytes.now counts.n first count)) part.old }
{
    let width = counts.set_width();
    let own = StateSet::first_states(8 * width); // what the bytes of one set can have
    for k in 0..room {
        let at = WORDS * k;
        if k < count {
            fill_set(&mut part[at..], bytes, HEADER + width * (first + k), own);
        } else {
            put_set(part, at, StateSet::empty());
        }
    }
}

// The set that begins at `at` in the contents, put into the first words of what is lent. As many bytes as a set can have are taken, and of their states
// those that `own` has: so no word is a case of its own, and the compiler makes one load of eight bytes.
fn fill_set(words: &mut [u64], bytes: &[u8], at: usize, own: StateSet)
    requires { (at + 8 * WORDS ≤ length bytes.now) × (WORDS ≤ length words.old) }
    ensures { words.new ≡ overwrite (meet (set_in bytes.now (8 * WORDS) at) own.words) words.old }
{
    // kept: `words[..WORDS].iter_mut().enumerate()` names one of the three words of a turn, and is no plainer.
    for v in 0..WORDS {
        words[v] = word_in(bytes, at, v) & own.words[v];
    }
}

// Word v of the widest set that begins at `at`.
fn word_in(bytes: &[u8], at: usize, v: usize) -> u64
    requires { (at + 8 * WORDS ≤ length bytes.now) × (v < WORDS) }
    ensures { result ≡ get_or (set_in bytes.now (8 * WORDS) at) v 0 }
{
    let first = at + 8 * v;
    let mut word = [0; 8];
    word.copy_from_slice(&bytes[first..first + 8]);
    u64::from_le_bytes(word)
}
