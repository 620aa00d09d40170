// A file on standard input, as the programs read it.
//
//   text_of                    which bytes of the room are the input's text, if it has one
//   put_for                    what is put for an input: for a text, what a function puts for its bytes; for no text nothing
//   Input, read_input          how reading ended, and how many bytes were read
//   read_more                  one read: how many bytes are there after it, and there is room for more; or how reading ended
//   after_read                 that, from what the read gave
//   input_room                 where the file is read into
#![tactic(auto)]

ghost use Rattle.std.specs.Prelude.{◌≡◌, ◌+◌, ◌<◌, length};
ghost use Rattle.model.specs.Files.{max_file};
ghost use Rattle.program_input.specs.Reads.{number_read, after_read, OneRead, Within, text_of, Puts, ForText};

use file_blocks::MAX_FILE;
use std::io;
use std::io::Read;
use std::ops::ControlFlow;

// One byte more than the largest file.
const INPUT: usize = MAX_FILE + 1;

// How reading ended: the input ended after so many bytes, before the room was full; the room is full; or a read failed.
// Only an input that ended has a number, so that a full room is taken whole, and nothing is taken of an input that failed.
// kept: Result's shape: `Reads.Within` and `Reads.text_of` tell a full room from an input that ended; it is no error, as `text_of` takes it whole.
#[derive(Clone, Copy, Debug, PartialEq, Eq)]
pub enum Input {
    Ended(usize),
    Full,
    Failed,
}

// What a program goes by, of how reading into so many bytes ended: the length of the text, at the front of the room. An input that fills the room
// is all of it, and a failed one has no text.
pub fn text_of(input: Input, room: usize) -> Option<usize>
    ensures { result ≡ text_of input room }
{
    match input {
        Input::Ended(length) => Some(length),
        Input::Full => Some(room),
        Input::Failed => None,
    }
}

// A failed input puts nothing: it must not pass for an empty file, which is a draft, nor for a part of a file.
// kept: Within with the room, here and in both programs: a type of both would be made in each main
pub fn put_for<T, F: FnOnce(&[u8], &mut T) -> usize>(
    read: Input,
    room: &[u8],
    out: &mut T,
    put: F,
) -> Option<usize>
    requires within { Within read (length room.now) }
    requires callable { F.IsAlwaysCallable put }
    ensures { ForText (λ text end. Puts (F.post put) text out.old end out.new) (text_of read (length room.now)) room.now result }
{
    let length = text_of(read, room.len())?;
    Some(put(&room[..length], out))
}

// Reads until the room is full, the input ends or a read fails.
pub fn read_input<R: Read>(reader: &mut R, room: &mut [u8]) -> Input
    ensures { Within result (length room.new) }
{
    if room.is_empty() {
        return Input::Full;
    }
    let mut there = 0;
    loop {
        match read_more(reader, there, room) {
            ControlFlow::Continue(length) => there = length,
            ControlFlow::Break(input) => return input,
        }
    }
}

// One read, into the room after what is there.
fn read_more<R: Read>(reader: &mut R, there: usize, room: &mut [u8]) -> ControlFlow<Input, usize>
    requires { there < length room.old }
    ensures { OneRead there room.old result room.new }
{
    let got = reader.read(&mut room[there..]);
    after_read(there, room.len(), got)
}

// A read that a signal interrupts counts as one that failed. More bytes than there is room for is an error too: a read promises that it does not
// happen, and if it did, nothing that was read could be trusted.
fn after_read(there: usize, room: usize, got: io::Result<usize>) -> ControlFlow<Input, usize>
    requires { there < room }
    ensures { result ≡ after_read there room (number_read got) }
{
    let left = room - there;
    match got {
        Err(_) => ControlFlow::Break(Input::Failed),
        Ok(0) => ControlFlow::Break(Input::Ended(there)),
        Ok(more) if more < left => ControlFlow::Continue(there + more),
        Ok(more) if more == left => ControlFlow::Break(Input::Full),
        Ok(_) => ControlFlow::Break(Input::Failed),
    }
}

// One byte more than the largest file, so that a longer one is seen to be too long.
pub fn input_room() -> [u8; INPUT]
    ensures { max_file + 1 ≡ length result }
{
    [0; INPUT]
}
