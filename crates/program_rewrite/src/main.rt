// Rewriting an old file (the specification, "Rewriting an old file"): reads a file of the old form on standard input and
// writes the same table in the new form, with its dead ends resting.
//
//   main          reads, calls and writes
//   put_answer    what is written for an input, by how reading it ended
//   put_text      what is written for a file, put into a lent buffer; the answer is its length
//
// A program has no status of its own: where reading or writing fails it says so on standard error.
#![tactic(auto)]

ghost use Rattle.std.specs.Prelude.{length};
ghost use Rattle.core_report.specs.Put.{Front};
ghost use Rattle.program_input.specs.Reads.{Within, text_of, ForText};
ghost use Rattle.program_rewrite.specs.RewriteText.{rewrite_text};

use call_rewrite::rewrite;
use core_report::write_refused;
use file_blocks::MAX_FILE;
use program_input::{Input, input_room, put_for, read_input};
use std::io;

fn main(rt: HostRuntime) -> io::Result<()> {
    let mut input = input_room();
    let read = read_input(&mut rt.stdin(), &mut input);
    let mut out = [0; MAX_FILE];
    let stderr = rt.stderr();
    match put_answer(read, &input, &mut out) {
        Some(end) => {
            if rt.stdout().write_all(&out[..end]).is_err() {
                return stderr.write_all(b"rewrite: the output could not be written\n");
            }
            Ok(())
        }
        None => stderr.write_all(b"rewrite: the input could not be read\n"),
    }
}

// A read that failed writes nothing.
// kept: beside put_answer of the other program: the body is put_for, and the clause each program's own
fn put_answer(read: Input, room: &[u8], out: &mut [u8; MAX_FILE]) -> Option<usize>
    requires { Within read (length room.now) }
    ensures { ForText (λ input end. Front (rewrite_text input) out.old end out.new) (text_of read (length room.now)) room.now result }
{
    put_for(read, room, out, put_text)
}

fn put_text(input: &[u8], out: &mut [u8; MAX_FILE]) -> usize
    ensures { Front (rewrite_text input.now) out.old result out.new }
{
    match rewrite(input, out) {
        Ok(length) => length,
        Err(refusal) => write_refused(u8::from(refusal), out),
    }
}
