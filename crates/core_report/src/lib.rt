// What is printed for a file (docs/SPECIFICATION.md, "The program"), put into a lent buffer.
//
//   write_safe, write_unsafe, write_undecided, write_refused
//                   the whole text at the front of the buffer; the answer is its length
//   Report          a text so far, in the buffer that it is put into
//     put_*           puts a piece behind it
//
// Each piece asks for the room that its longest text takes, and says that its text takes no more. All numbers are of 16 bits, as a path's
// entries are, so each takes five bytes at most, and a state with the space before it six.
#![tactic(auto)]

ghost use Rattle.std.specs.Prelude.{◌+◌, ◌*◌, ◌≤◌, ◌<◌, cond, [], ◌∷◌, ◌++◌, eqb, length};
ghost use Rattle.model.specs.Sets.{max_states, members};
ghost use Rattle.model.specs.Stores.{max_groups};
ghost use Rattle.model.specs.Calls.{release};
ghost use Rattle.core_report.specs.Text.{ascii, digit, decimal, spaced, states_line, verdict_line, invariant_line, path_line, safe_text, unsafe_text, undecided_text, refused_text};
ghost use Rattle.core_report.specs.Put.{number_limit, number_bytes, spaced_bytes, text_room, Front, Room, Put};

use core_state_set::{MAX_STATES, StateSet};

// A number and the space before it.
const SPACED: usize = 6;

// The specs' text_room is the same number.
pub const ROOM: usize = 1024 + SPACED * MAX_STATES;

// kept: n, g and count with their bounds, and the room of out, here and below: a type would be made for one text, and taken apart in it
pub fn write_safe(n: usize, g: usize, count: usize, invariant: StateSet, out: &mut [u8]) -> usize
    requires { (n ≤ max_states) × (g ≤ max_groups) × (count ≤ release) × (text_room ≤ length out.old) }
    ensures { Front (safe_text n g count invariant.words) out.old result out.new }
{
    let mut report = Report { out, at: 0 };
    report.put_head(n, g, b"safe", count);
    report.put_invariant_line(invariant);
    report.at
}

// The path has its states and nothing else.
pub fn write_unsafe(n: usize, g: usize, count: usize, path: &[u16], out: &mut [u8]) -> usize
    requires { (n ≤ max_states) × (g ≤ max_groups) × (count ≤ release) × (length path.now ≤ max_states) × (text_room ≤ length out.old) }
    ensures { Front (unsafe_text n g count path.now) out.old result out.new }
{
    let mut report = Report { out, at: 0 };
    report.put_head(n, g, b"unsafe", count);
    report.put_path_line(path);
    report.at
}

pub fn write_undecided(n: usize, g: usize, count: usize, out: &mut [u8]) -> usize
    requires { (n ≤ max_states) × (g ≤ max_groups) × (count ≤ release) × (text_room ≤ length out.old) }
    ensures { Front (undecided_text n g count) out.old result out.new }
{
    let mut report = Report { out, at: 0 };
    report.put_head(n, g, b"undecided", count);
    report.at
}

// kept: a number, and not a `Refusal`: the clause is of every byte, and the narrower type would ask more of callers
pub fn write_refused(refusal: u8, out: &mut [u8]) -> usize
    requires { text_room ≤ length out.old }
    ensures { Front (refused_text refusal) out.old result out.new }
{
    let mut report = Report { out, at: 0 };
    report.put_number(b"refused ", usize::from(refusal));
    report.put(b"\n");
    report.at
}

// A text so far: it stands in the buffer up to `at`.
// kept: out with at, as there is no heap; and each piece asks for the room that it takes, so no ghost field can say it for all of them
#[derive(Drop)]
struct Report<'a> {
    out: &'a mut [u8],
    at: usize,
}

impl<'a> Report<'a> {
    // ---- lines

    // Lines 1 and 2; the word is the verdict's.
    // kept: numbers below number_limit and no u16: they are usize where they come from, and each call would cut them
    fn put_head(&mut self, n: usize, g: usize, word: &[u8], count: usize)
        requires { (n < number_limit) × (g < number_limit) × (length word.now ≤ 9) × (count < number_limit) × Room (39 + 3 * number_bytes) self.old }
        ensures { Put (39 + 3 * number_bytes) (states_line n g ++ verdict_line word.now count) self.old self.new }
    {
        self.put_states_line(n, g);
        self.put_verdict_line(word, count);
    }

    fn put_states_line(&mut self, n: usize, g: usize)
        requires { (n < number_limit) × (g < number_limit) × Room (16 + 2 * number_bytes) self.old }
        ensures { Put (16 + 2 * number_bytes) (states_line n g) self.old self.new }
    {
        self.put_number(b"states ", n);
        self.put_number(b" groups ", g);
        self.put(b"\n");
    }

    fn put_verdict_line(&mut self, word: &[u8], count: usize)
        requires { (length word.now ≤ 9) × (count < number_limit) × Room (23 + number_bytes) self.old }
        ensures { Put (23 + number_bytes) (verdict_line word.now count) self.old self.new }
    {
        self.put(word);
        self.put_number(b" refinements ", count);
        self.put(b"\n");
    }

    fn put_invariant_line(&mut self, x: StateSet)
        requires { Room (12 + number_bytes + spaced_bytes * max_states) self.old }
        ensures { Put (12 + number_bytes + spaced_bytes * max_states) (invariant_line x.words) self.old self.new }
    {
        let states = x.count();
        self.put_number(b"invariant ", states);
        self.put(b":");
        self.put_states_or_none(x, states);
        self.put(b"\n");
    }

    fn put_path_line(&mut self, path: &[u16])
        requires { (length path.now ≤ max_states) × Room (5 + spaced_bytes * max_states) self.old }
        ensures { Put (5 + spaced_bytes * max_states) (path_line path.now) self.old self.new }
    {
        self.put(b"path");
        self.put_path(path);
        self.put(b"\n");
    }

    // ---- parts of lines

    fn put_states_or_none(&mut self, x: StateSet, count: usize)
        requires { Room (spaced_bytes * max_states) self.old }
        ensures { Put (spaced_bytes * max_states) (cond (eqb count 0) (ascii " none") (spaced (members x.words))) self.old self.new }
    {
        if count == 0 {
            self.put(b" none");
        } else {
            self.put_states(x);
        }
    }

    // The states of x rising, each after a space.
    fn put_states(&mut self, x: StateSet)
        requires { Room (spaced_bytes * max_states) self.old }
        ensures { Put (spaced_bytes * max_states) (spaced (members x.words)) self.old self.new }
    {
        for s in x.states() {
            self.put_spaced(s);
        }
    }

    // The states of the path, each after a space.
    fn put_path(&mut self, path: &[u16])
        requires { Room (spaced_bytes * length path.now) self.old }
        ensures { Put (spaced_bytes * length path.now) (spaced path.now) self.old self.new }
    {
        for s in path {
            self.put_spaced(usize::from(*s));
        }
    }

    fn put_spaced(&mut self, x: usize)
        requires { (x < number_limit) × Room spaced_bytes self.old }
        ensures { Put spaced_bytes (spaced (x ∷ [])) self.old self.new }
    {
        self.put_number(b" ", x);
    }

    // A text and a number.
    fn put_number(&mut self, label: &[u8], n: usize)
        requires { (n < number_limit) × Room (length label.now + number_bytes) self.old }
        ensures { Put (length label.now + number_bytes) (label.now ++ decimal n) self.old self.new }
    {
        self.put(label);
        self.put_decimal(n);
    }

    // The digits of n: the last one after those of n / 10.
    // kept: by hand: each piece says its text and its room, and `write!` is no plainer (1,677 instructions for 350, unsafe with a path of 4 states)
    fn put_decimal(&mut self, n: usize)
        requires { Room (length (decimal n)) self.old }
        ensures { Put (length (decimal n)) (decimal n) self.old self.new }
    {
        if n < 10 {
            self.put_digit(n);
        } else {
            self.put_decimal(n / 10);
            self.put_digit(n % 10);
        }
    }

    fn put_digit(&mut self, d: usize)
        requires { (d < 10) × Room 1 self.old }
        ensures { Put 1 (digit d ∷ []) self.old self.new }
    {
        self.out[self.at] = b'0' + d as u8;
        self.at += 1;
    }

    // kept: byte by byte, and no `copy_from_slice`: with it the archive for C needs `memmove`, besides `memcpy` and `memset`
    fn put(&mut self, text: &[u8])
        requires { Room (length text.now) self.old }
        ensures { Put (length text.now) text.now self.old self.new }
    {
        for byte in text {
            self.out[self.at] = *byte;
            self.at += 1;
        }
    }
}
