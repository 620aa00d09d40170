// The contents of a file, from the store to a buffer in which they are joined.
//
//   join_contents, join_sets       the contents; the sets, which stand behind the header
//   place_of                       where a set of the file begins in the store
//   put_set_bytes                  the bytes of a set
//   put_words, put_bytes           those of some words; the lowest of a word
//   write_le16                     a two-byte number, low byte first
//
// What is written is said with the model's `overwrite`: at the front of what was lent, the rest of it untouched.
#![tactic(auto)]

ghost use Rattle.std.specs.Prelude.{◌+◌, ◌*◌, ◌≤◌, ◌<◌, ◌≡◌, length};
ghost use Rattle.model.specs.Sets.{WORDS, max_states};
ghost use Rattle.basics.specs.Bounds.{concat};
ghost use Rattle.model.specs.Stores.{head_sets, store_words, dialogue_of};
ghost use Rattle.model.specs.Blocks.{le16};
ghost use Rattle.model.specs.Contents.{new_form, set_width, set_bytes, contents, content_length};
ghost use Rattle.model.specs.Calls.{overwrite};
ghost use Rattle.file_contents_writing.specs.Placed.{word_bytes, words_bytes, place_of, placed_set};

use core_state_set::WORDS;
use core_table::{GROUPS_AT, HEAD_SETS, ROWS_AT, Store};
use file_blocks::{Counts, Form, HEADER, added};

// kept: store, counts and out apart, here and below: a type of them would be made in one call and taken apart here
pub fn join_contents(store: Store, counts: Counts, out: &mut [u8])
    requires { content_length new_form counts.n counts.g ≤ length out.old }
    ensures { out.new ≡ overwrite (contents new_form (dialogue_of store.entry.words.now counts.n counts.g)) out.old }
{
    write_le16(counts.n, out);
    write_le16(added(Form::New) + counts.g, &mut out[2..]);
    join_sets(store, counts, &mut out[HEADER..]);
}

fn join_sets(store: Store, counts: Counts, out: &mut [u8])
    requires { set_width counts.n * (head_sets + counts.g + counts.n) ≤ length out.old }
    ensures { out.new ≡ overwrite (concat (head_sets + counts.g + counts.n) (placed_set store.entry.words.now (set_width counts.n) counts.g)) out.old }
{
    let width = counts.set_width();
    for k in 0..counts.set_count(Form::New) {
        let a = place_of(counts, k);
        let e = a + WORDS;
        let at = width * k;
        put_set_bytes(&store.words[a..e], width, &mut out[at..]);
    }
}

// Where set k of the file begins in the store.
fn place_of(counts: Counts, k: usize) -> usize
    requires { k < head_sets + counts.g + max_states }
    ensures { (result ≡ place_of counts.g k) × (result + WORDS ≤ store_words) }
{
    let g = counts.g;
    if k < HEAD_SETS {
        return WORDS * k;
    }
    if k < HEAD_SETS + g {
        return GROUPS_AT + WORDS * (k - HEAD_SETS);
    }
    ROWS_AT + WORDS * (k - (HEAD_SETS + g))
}

// The first `width` bytes of a set: its whole words, and what is left of one.
fn put_set_bytes(set: &[u64], width: usize, out: &mut [u8])
    requires { (WORDS ≤ length set.now) × (width ≤ 8 * WORDS) × (width ≤ length out.old) }
    ensures { out.new ≡ overwrite (set_bytes width set.now) out.old }
{
    let whole = width / 8;
    put_words(&set[..whole], out);
    let at = 8 * whole;
    if at == width {
        return;
    }
    put_bytes(set[whole], width - at, &mut out[at..]);
}

fn put_words(words: &[u64], out: &mut [u8])
    requires { 8 * length words.now ≤ length out.old }
    ensures { out.new ≡ overwrite (concat (length words.now) (words_bytes words.now)) out.old }
{
    for (v, word) in words.iter().enumerate() {
        let at = 8 * v;
        put_bytes(*word, 8, &mut out[at..]);
    }
}

// The lowest `count` bytes of a word, lowest first.
fn put_bytes(x: u64, count: usize, out: &mut [u8])
    requires { (count ≤ 8) × (count ≤ length out.old) }
    ensures { out.new ≡ overwrite (word_bytes x count) out.old }
{
    out[..count].copy_from_slice(&x.to_le_bytes()[..count]);
}

pub fn write_le16(x: usize, out: &mut [u8])
    requires { 2 ≤ length out.old }
    ensures { out.new ≡ overwrite (le16 x) out.old }
{
    put_bytes(x as u64, 2, out);
}
