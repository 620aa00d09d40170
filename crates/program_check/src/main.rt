// The program `check` (the specification, "The program"): reads one file on standard input, has it checked, and prints.
//
//   main          reads, calls and writes
//   put_answer    what is printed for an input, by how reading it ended
//   put_text      what is printed for a file, put into a lent buffer; the answer is its length
#![tactic(auto)]

ghost use Rattle.std.specs.Prelude.{length};
ghost use Rattle.core_report.specs.Put.{Front};
ghost use Rattle.call_check.specs.CheckText.{check_text};
ghost use Rattle.program_input.specs.Reads.{Within, text_of, ForText};

use call_check::{CHECK_TEXT, check};
use core_report::write_refused;
use program_input::{Input, input_room, put_for, read_input};
use std::io;

// The site of the files that the program reads.
const SITE: usize = 0;

fn main(rt: HostRuntime) -> io::Result<()> {
    let mut input = input_room();
    let read = read_input(&mut rt.stdin(), &mut input);
    let mut out = [0u8; CHECK_TEXT];
    match put_answer(read, &input, &mut out) {
        Some(end) => rt.stdout().write_all(&out[..end]),
        None => rt
            .stderr()
            .write_all(b"check: the input could not be read\n"),
    }
}

// A read that failed prints no verdict.
// kept: beside put_answer of the other program: the body is put_for, and the clause each program's own
fn put_answer(read: Input, room: &[u8], out: &mut [u8; CHECK_TEXT]) -> Option<usize>
    requires { Within read (length room.now) }
    ensures { ForText (λ input end. Front (check_text input 0) out.old end out.new) (text_of read (length room.now)) room.now result }
{
    put_for(read, room, out, put_text)
}

// There is room for any text, and site 0 is one, so that the call is never refused.
fn put_text(input: &[u8], out: &mut [u8; CHECK_TEXT]) -> usize
    ensures { Front (check_text input.now 0) out.old result out.new }
{
    match check(input, SITE, out) {
        Ok(checked) => checked.length,
        Err(refusal) => write_refused(u8::from(refusal), out),
    }
}
