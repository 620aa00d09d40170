// The calls read and write: the file of E byte for byte, what is accepted, each refusal alone and beside a later one, the
// edges, and round trips. A buffer holds sevens before a call; after it, all that the answer does not account for is looked at.
// tests/expected/programs.py works out what this must print, from the specification's text.
//
// Places in the file of E, of one block: number 0 1, n 2 3, the second number 4 5, initial set 6, marked set 7, resting set 8, rows 9 10 11,
// filler 12 to 509, check 510 511. In that of a full block the resting set has 22 to 29 and the last row ends at 509, so that nothing is filler.
// That of H has a second block: last row 514 to 521, filler 522 to 1021. With a group, which has 30 to 37, last row 522 to 529, filler 530 to 1021.
#![tactic(auto)]

ghost use Rattle.std.specs.Prelude.{◌*◌, ◌^◌, ◌<◌};

use core_refusals::Refusal;
use core_state_set::MAX_STATES;
use core_table::{MAX_GROUPS, STORE_WORDS};
use file_blocks::MAX_FILE;
use file_reading::{TableSize, read};
use file_writing::write;
use std::io;
use std::io::Stdout;
use test_support::{
    Table, add, byte_at, digest_all, digest_words, generate, generate_largest, group, groups_of,
    initial, left_out, marked, numbers, print_rest, put_byte, put_table, refused, resting,
    states_of, step, unchanged,
};

// ---- one call of write

// The answer, and how many bytes at the front of the output it accounts for.
fn print_written(stdout: Stdout, w: Result<usize, Refusal>, output: &[u8]) -> io::Result<usize> {
    match w {
        Ok(length) => {
            print!(stdout; ": file of {length}")?;
            match output.get(..length) {
                Some(file) => print!(stdout; ", digest {}", digest_all(0, file))?,
                None => left_out(stdout)?,
            }
            Ok(length)
        }
        Err(refusal) => {
            print!(stdout; ": ")?;
            refused(stdout, refusal)?;
            Ok(0)
        }
    }
}

fn call_write(stdout: Stdout, t: Table, site: usize, output: &mut [u8]) -> io::Result<usize> {
    let w = write(t.store, t.n, t.g, site, output);
    print_written(stdout, w, output)
}

// Write for a site to the first `room` bytes of an output.
fn try_write_for(stdout: Stdout, t: Table, site: usize, room: usize) -> io::Result<()> {
    let mut output = [7u8; MAX_FILE + 48];
    print!(stdout; " from {} n {} g {} into {room}", t.store.len(), t.n, t.g)?;
    let written = match output.get_mut(..room) {
        Some(first) => call_write(stdout, t, site, first)?,
        None => return left_out(stdout),
    };
    print_rest(
        stdout,
        "the rest",
        "unchanged",
        unchanged(&output, written, 7),
    )
}

fn try_write(stdout: Stdout, t: Table, room: usize) -> io::Result<()> {
    try_write_for(stdout, t, 0, room)
}

// ---- one call of read

// The answer, and how many words at the front of the store it accounts for.
fn print_read(stdout: Stdout, r: Result<TableSize, Refusal>, store: &[u64]) -> io::Result<usize> {
    match r {
        Ok(size) => {
            print!(stdout; ": n {} g {}", size.n, size.g)?;
            match store.get(..STORE_WORDS) {
                Some(table) => print!(stdout; ", digest {}", digest_words(0, table))?,
                None => left_out(stdout)?,
            }
            Ok(STORE_WORDS)
        }
        Err(refusal) => {
            print!(stdout; ": ")?;
            refused(stdout, refusal)?;
            Ok(0)
        }
    }
}

fn call_read(stdout: Stdout, input: &[u8], site: usize, store: &mut [u64]) -> io::Result<usize> {
    let r = read(input, site, store);
    print_read(stdout, r, store)
}

// Read an input at a site to the first `words` words of a store.
fn try_read_at(stdout: Stdout, input: &[u8], site: usize, words: usize) -> io::Result<()> {
    let mut store = [7u64; STORE_WORDS + 12];
    print!(stdout; " from {} into {words}", input.len())?;
    let filled = match store.get_mut(..words) {
        Some(first) => call_read(stdout, input, site, first)?,
        None => return left_out(stdout),
    };
    print_rest(
        stdout,
        "the rest",
        "unchanged",
        unchanged(&store, filled, 7),
    )
}

fn try_read(stdout: Stdout, input: &[u8], words: usize) -> io::Result<()> {
    try_read_at(stdout, input, 0, words)
}

// ---- damage

// A product on its own: its bounds are all that the checker needs to see that it fits.
fn times(k: usize, x: usize) -> usize
    requires { (k < 1024) × (1024 * x < 2 ^ 63) }
{
    k * x
}

// The check of a block set right for another value of its byte i, which counts i + 1 times in it.
fn mend(stdout: Stdout, file: &mut [u8], at: usize, value: u8) -> io::Result<()> {
    let i = at % 512;
    if i < 510 {
        if at < file.len() {
            let c = at - i + 510;
            let check = byte_at(stdout, file, c)? + 256 * byte_at(stdout, file, c + 1)?;
            let more = times(
                i + 1,
                65521 + usize::from(value) - byte_at(stdout, file, at)?,
            ) % 65521;
            let sum = (check + more) % 65521;
            put_byte(stdout, file, c, (sum % 256) as u8)?;
            put_byte(stdout, file, c + 1, (sum / 256) as u8)?;
        }
    }
    Ok(())
}

// A byte replaced, and unless it is one of the check's own, the check set right.
fn replace(stdout: Stdout, file: &mut [u8], at: usize, value: u8) -> io::Result<()> {
    print!(stdout; " {at}={value}")?;
    mend(stdout, file, at, value)?;
    put_byte(stdout, file, at, value)
}

// Read the first `length` bytes of the file of a table to `words` words, with the bytes at some places replaced; zeros stand behind the file.
fn try_file(
    stdout: Stdout,
    t: Table,
    length: usize,
    words: usize,
    replaced: &[(usize, u8)],
) -> io::Result<()> {
    let mut file = [0u8; MAX_FILE + 512];
    let _ = write(t.store, t.n, t.g, 0, &mut file);
    for (at, value) in replaced {
        replace(stdout, &mut file, *at, *value)?;
    }
    match file.get(..length) {
        Some(input) => try_read(stdout, input, words),
        None => left_out(stdout),
    }
}

// ---- E

fn print_e(stdout: Stdout, e: Table) -> io::Result<()> {
    let mut output = [7u8; 512];
    let _ = write(e.store, e.n, e.g, 0, &mut output);
    print!(stdout; "file of E:")?;
    numbers(stdout, &output)?;
    println!(stdout)
}

// Room to spare, enough, a byte short, none; then 10, 14, 15 and 17, each alone and beside later ones.
fn write_e(stdout: Stdout, e: &[u64; STORE_WORDS]) -> io::Result<()> {
    println!(stdout; "write E")?;
    try_write(stdout, Table::new(e, 3, 0), MAX_FILE + 48)?;
    try_write(stdout, Table::new(e, 3, 0), 512)?;
    try_write(stdout, Table::new(e, 3, 0), 511)?;
    try_write(stdout, Table::new(e, 3, 0), 0)?;
    try_write(stdout, Table::new(&e[..STORE_WORDS - 1], 3, 0), 512)?;
    try_write(
        stdout,
        Table::new(&e[..STORE_WORDS - 1], 0, MAX_GROUPS + 1),
        511,
    )?;
    try_write(stdout, Table::new(e, 0, 0), 512)?;
    try_write(stdout, Table::new(e, MAX_STATES + 1, 0), MAX_FILE)?;
    try_write(stdout, Table::new(e, 0, MAX_GROUPS + 1), 511)?;
    try_write(stdout, Table::new(e, 3, MAX_GROUPS), 512)?;
    try_write(stdout, Table::new(e, 3, MAX_GROUPS + 1), 512)?;
    try_write(stdout, Table::new(e, 2, MAX_GROUPS + 1), 511)?;
    try_write(stdout, Table::new(e, 2, 0), 512)?;
    try_write(stdout, Table::new(e, 2, 0), 511)
}

// No output is too short for it; then 10, and 14 for groups without states.
fn write_draft(stdout: Stdout) -> io::Result<()> {
    let t = [0u64; STORE_WORDS + 12];
    println!(stdout; "write a draft")?;
    try_write(stdout, Table::new(&t[..STORE_WORDS], 0, 0), 0)?;
    try_write(stdout, Table::new(&t, 0, 0), 512)?;
    try_write(stdout, Table::new(&t[..STORE_WORDS - 1], 0, 0), 0)?;
    try_write(stdout, Table::new(&t[..STORE_WORDS], 0, 1), 512)?;
    try_write(stdout, Table::new(&t[..STORE_WORDS], 0, MAX_GROUPS + 1), 0)
}

// At last beside no input at all.
fn read_stores(stdout: Stdout, e: Table) -> io::Result<()> {
    println!(stdout; "read E")?;
    try_file(stdout, e, 512, STORE_WORDS, &[])?;
    try_file(stdout, e, 512, STORE_WORDS + 12, &[])?;
    try_file(stdout, e, 512, STORE_WORDS - 1, &[])?;
    try_file(stdout, e, 0, STORE_WORDS - 1, &[])
}

fn read_e(stdout: Stdout, e: Table, replaced: &[(usize, u8)]) -> io::Result<()> {
    try_file(stdout, e, 512, STORE_WORDS, replaced)
}

// No bytes, which are a draft; then too few and too many; at last beside a wrong number.
fn read_lengths(stdout: Stdout, e: Table) -> io::Result<()> {
    try_file(stdout, e, 0, STORE_WORDS, &[])?;
    try_file(stdout, e, 511, STORE_WORDS, &[])?;
    try_file(stdout, e, 513, STORE_WORDS, &[])?;
    try_file(stdout, e, 511, STORE_WORDS, &[(0, 1)])
}

// The number, alone and beside a wrong check; the check, alone and beside n 0.
fn read_blocks(stdout: Stdout, e: Table) -> io::Result<()> {
    read_e(stdout, e, &[(0, 1)])?;
    read_e(stdout, e, &[(1, 1)])?;
    read_e(stdout, e, &[(0, 1), (510, 97)])?;
    read_e(stdout, e, &[(510, 98)])?;
    read_e(stdout, e, &[(511, 1)])?;
    read_e(stdout, e, &[(2, 0), (510, 97)])
}

// n 0, alone, beside the old form's second number and beside g 65; n 513; n 515 beside the old form's second number.
fn read_states(stdout: Stdout, e: Table) -> io::Result<()> {
    read_e(stdout, e, &[(2, 0)])?;
    read_e(stdout, e, &[(2, 0), (5, 0)])?;
    read_e(stdout, e, &[(2, 0), (4, 65)])?;
    read_e(stdout, e, &[(2, 1), (3, 2)])?;
    read_e(stdout, e, &[(3, 2), (5, 0)])
}

// g 64; g 65; the second number 0, as in the old form; 32,767; 33,024; 65,280. Then g 65 and the second number 0 beside too few blocks for 61
// states, and 0 beside the initial state 3.
fn read_second(stdout: Stdout, e: Table) -> io::Result<()> {
    read_e(stdout, e, &[(4, 64)])?;
    read_e(stdout, e, &[(4, 65)])?;
    read_e(stdout, e, &[(5, 0)])?;
    read_e(stdout, e, &[(4, 255), (5, 127)])?;
    read_e(stdout, e, &[(5, 129)])?;
    read_e(stdout, e, &[(5, 255)])?;
    read_e(stdout, e, &[(2, 61), (4, 65)])?;
    read_e(stdout, e, &[(2, 61), (5, 0)])?;
    read_e(stdout, e, &[(5, 0), (6, 9)])
}

// Too few blocks for n 61, alone and beside the initial state 63; then a block too many: one of zeros, which does not hold its number; one
// that does, alone and beside the initial state 3.
fn read_numbers_of_blocks(stdout: Stdout, e: Table) -> io::Result<()> {
    read_e(stdout, e, &[(2, 61)])?;
    read_e(stdout, e, &[(2, 61), (13, 128)])?;
    try_file(stdout, e, 1024, STORE_WORDS, &[])?;
    try_file(stdout, e, 1024, STORE_WORDS, &[(512, 1)])?;
    try_file(stdout, e, 1024, STORE_WORDS, &[(512, 1), (6, 9)])
}

// State 2 resting, which is read; 3 initial; 3 marked; 3 resting; 7 in the last row; 3 resting beside filler; the first and the last byte of filler.
fn read_contents(stdout: Stdout, e: Table) -> io::Result<()> {
    read_e(stdout, e, &[(8, 4)])?;
    read_e(stdout, e, &[(6, 9)])?;
    read_e(stdout, e, &[(7, 12)])?;
    read_e(stdout, e, &[(8, 8)])?;
    read_e(stdout, e, &[(11, 128)])?;
    read_e(stdout, e, &[(8, 8), (12, 1)])?;
    read_e(stdout, e, &[(12, 1)])?;
    read_e(stdout, e, &[(509, 128)])
}

fn try_e(stdout: Stdout, e: &[u64; STORE_WORDS]) -> io::Result<()> {
    let table = Table::new(e, 3, 0);
    print_e(stdout, table)?;
    write_e(stdout, e)?;
    write_draft(stdout)?;
    read_stores(stdout, table)?;
    read_lengths(stdout, table)?;
    read_blocks(stdout, table)?;
    read_states(stdout, table)?;
    read_second(stdout, table)?;
    read_numbers_of_blocks(stdout, table)?;
    read_contents(stdout, table)
}

fn table_e(stdout: Stdout) -> io::Result<()> {
    let mut e = [0u64; STORE_WORDS];
    put_table(stdout, &mut e, b"0", b"2", b"00 12")?;
    try_e(stdout, &e)
}

// ---- the other tables

// At last with one of the resting states from n up, and with both.
fn table_resting(stdout: Stdout) -> io::Result<()> {
    let mut t = [0u64; STORE_WORDS];
    resting(stdout, &mut t, 1)?;
    resting(stdout, &mut t, 2)?;
    println!(stdout; "write nothing but 1 and 2 resting")?;
    try_write(stdout, Table::new(&t, 3, 0), 512)?;
    try_write(stdout, Table::new(&t, 2, 0), 512)?;
    try_write(stdout, Table::new(&t, 0, 0), 512)
}

// E with a state in group 0, which is unused where g is 0, and a step from state 3, whose row is unused where n is 3.
fn table_with_more(stdout: Stdout) -> io::Result<()> {
    let mut t = [0u64; STORE_WORDS];
    put_table(stdout, &mut t, b"0", b"2", b"00 12 30")?;
    group(stdout, &mut t, 0, 0)?;
    println!(stdout; "write E with a group and a step from 3")?;
    try_write(stdout, Table::new(&t, 4, 0), 512)?;
    try_write(stdout, Table::new(&t, 3, 1), 512)?;
    try_write(stdout, Table::new(&t, 4, 1), 512)
}

// A table whose greatest state is `last`, which is marked and steps to itself.
fn put_with_last(stdout: Stdout, t: &mut [u64], last: usize, rests: usize) -> io::Result<()> {
    initial(stdout, t, 0)?;
    initial(stdout, t, 8)?;
    marked(stdout, t, last)?;
    resting(stdout, t, 9)?;
    resting(stdout, t, rests)?;
    step(stdout, t, 0, last)?;
    step(stdout, t, 31, 32)?;
    step(stdout, t, last, last)
}

// L either side of 508: without a group, then with one, which is empty.
fn write_full(stdout: Stdout, t: &[u64]) -> io::Result<()> {
    println!(stdout; "write a full block")?;
    try_write(stdout, Table::new(t, 60, 0), 512)?;
    try_write(stdout, Table::new(t, 60, 0), 511)?;
    try_write(stdout, Table::new(t, 60, 1), 1024)?;
    try_write(stdout, Table::new(t, 60, 1), 1023)
}

// At last with state 60 in the last row, and in the resting set.
fn read_full(stdout: Stdout, t: Table) -> io::Result<()> {
    println!(stdout; "read a full block")?;
    try_file(stdout, t, 512, STORE_WORDS, &[])?;
    try_file(stdout, t, 512, STORE_WORDS, &[(509, 24)])?;
    try_file(stdout, t, 512, STORE_WORDS, &[(29, 16)])
}

fn table_full(stdout: Stdout) -> io::Result<()> {
    let mut t = [0u64; STORE_WORDS];
    put_with_last(stdout, &mut t, 59, 32)?;
    write_full(stdout, &t)?;
    read_full(stdout, Table::new(&t, 60, 0))
}

// Two blocks without a group and with one, which is empty.
fn write_h(stdout: Stdout, h: &[u64]) -> io::Result<()> {
    println!(stdout; "write H")?;
    try_write(stdout, Table::new(h, 61, 0), 1024)?;
    try_write(stdout, Table::new(h, 61, 0), 1023)?;
    try_write(stdout, Table::new(h, 61, 1), 1024)?;
    try_write(stdout, Table::new(h, 61, 1), 1023)
}

// All of it; the first block alone; state 61 in the last row; the first byte of filler.
fn read_h(stdout: Stdout, h: Table) -> io::Result<()> {
    println!(stdout; "read H")?;
    try_file(stdout, h, 1024, STORE_WORDS, &[])?;
    try_file(stdout, h, 512, STORE_WORDS, &[])?;
    try_file(stdout, h, 1024, STORE_WORDS, &[(521, 48)])?;
    try_file(stdout, h, 1024, STORE_WORDS, &[(522, 1)])
}

fn read_h1(stdout: Stdout, h: Table, replaced: &[(usize, u8)]) -> io::Result<()> {
    try_file(stdout, h, 1024, STORE_WORDS, replaced)
}

// All of it; the first block alone; the second block's number; its check; both; the first one's number and its check; the first one's
// check and its number.
fn read_h_blocks(stdout: Stdout, h: Table) -> io::Result<()> {
    println!(stdout; "read H with a group")?;
    read_h1(stdout, h, &[])?;
    try_file(stdout, h, 512, STORE_WORDS, &[])?;
    read_h1(stdout, h, &[(512, 0)])?;
    read_h1(stdout, h, &[(1023, 255)])?;
    read_h1(stdout, h, &[(512, 7), (1023, 255)])?;
    read_h1(stdout, h, &[(0, 9), (1023, 255)])?;
    read_h1(stdout, h, &[(511, 255), (512, 7)])
}

// State 61 resting; in the group; in the last row; the first and the last byte of filler.
fn read_h_contents(stdout: Stdout, h: Table) -> io::Result<()> {
    read_h1(stdout, h, &[(29, 48)])?;
    read_h1(stdout, h, &[(37, 32)])?;
    read_h1(stdout, h, &[(529, 48)])?;
    read_h1(stdout, h, &[(530, 1)])?;
    read_h1(stdout, h, &[(1021, 1)])
}

fn table_h(stdout: Stdout) -> io::Result<()> {
    let mut h = [0u64; STORE_WORDS];
    put_with_last(stdout, &mut h, 60, 60)?;
    write_h(stdout, &h)?;
    read_h(stdout, Table::new(&h, 61, 0))?;
    let grouped = Table::new(&h, 61, 1);
    read_h_blocks(stdout, grouped)?;
    read_h_contents(stdout, grouped)
}

fn write_largest(stdout: Stdout, t: &[u64; STORE_WORDS + 12]) -> io::Result<()> {
    println!(stdout; "write the largest table")?;
    try_write(stdout, Table::new(t, MAX_STATES, MAX_GROUPS), MAX_FILE)?;
    try_write(
        stdout,
        Table::new(&t[..STORE_WORDS], MAX_STATES, MAX_GROUPS),
        MAX_FILE - 1,
    )?;
    try_write(
        stdout,
        Table::new(&t[..STORE_WORDS], MAX_STATES + 1, MAX_GROUPS),
        MAX_FILE,
    )?;
    try_write(
        stdout,
        Table::new(&t[..STORE_WORDS], MAX_STATES, MAX_GROUPS + 1),
        MAX_FILE,
    )?;
    try_write(
        stdout,
        Table::new(&t[..STORE_WORDS], MAX_STATES, MAX_GROUPS - 1),
        MAX_FILE,
    )?;
    try_write(
        stdout,
        Table::new(&t[..STORE_WORDS], MAX_STATES - 1, MAX_GROUPS),
        MAX_FILE,
    )
}

// All of it; a byte more; a block more; a block less; g 65; n 513 and g 65; the second number of the old form.
fn read_largest(stdout: Stdout, t: Table) -> io::Result<()> {
    println!(stdout; "read the largest table")?;
    try_file(stdout, t, MAX_FILE, STORE_WORDS + 12, &[])?;
    try_file(stdout, t, MAX_FILE + 1, STORE_WORDS, &[])?;
    try_file(stdout, t, MAX_FILE + 512, STORE_WORDS, &[])?;
    try_file(stdout, t, MAX_FILE - 512, STORE_WORDS, &[])?;
    try_file(stdout, t, MAX_FILE, STORE_WORDS, &[(4, 65)])?;
    try_file(stdout, t, MAX_FILE, STORE_WORDS, &[(2, 1), (4, 65)])?;
    try_file(stdout, t, MAX_FILE, STORE_WORDS, &[(5, 0)])
}

// A word past those of a table is not 0, and is not read.
fn table_largest(stdout: Stdout) -> io::Result<()> {
    let mut t = [0u64; STORE_WORDS + 12];
    generate_largest(stdout, &mut t)?;
    add(stdout, &mut t, STORE_WORDS, 3)?;
    write_largest(stdout, &t)?;
    read_largest(stdout, Table::new(&t, MAX_STATES, MAX_GROUPS))
}

// ---- sites

fn write_site(stdout: Stdout, t: Table, site: usize, room: usize) -> io::Result<()> {
    print!(stdout; " site {site}")?;
    try_write_for(stdout, t, site, room)
}

// At site 64,651 the check of E is 0. 24 stands behind 10 and before all else.
fn write_sites(stdout: Stdout, e: &[u64; STORE_WORDS]) -> io::Result<()> {
    let table = Table::new(e, 3, 0);
    println!(stdout; "write E for a site")?;
    write_site(stdout, table, 0, 512)?;
    write_site(stdout, table, 1, 512)?;
    write_site(stdout, table, 64651, 512)?;
    write_site(stdout, table, 65520, 512)?;
    write_site(stdout, table, 65521, 512)?;
    write_site(stdout, table, 4294967296, 512)?;
    write_site(stdout, table, 18446744073709551615, 512)?;
    write_site(stdout, Table::new(&e[..STORE_WORDS - 1], 3, 0), 65521, 512)?;
    write_site(stdout, Table::new(e, 0, 1), 65521, 512)?;
    write_site(stdout, Table::new(e, 0, 65), 65521, 0)?;
    write_site(stdout, table, 65521, 0)
}

// The first `length` bytes of the file of E for one site, read at another.
fn read_site(
    stdout: Stdout,
    e: Table,
    made: usize,
    length: usize,
    site: usize,
    words: usize,
) -> io::Result<()> {
    let mut file = [0u8; 1024];
    let _ = write(e.store, e.n, e.g, made, &mut file);
    print!(stdout; " made for {made} site {site}")?;
    match file.get(..length) {
        Some(input) => try_read_at(stdout, input, site, words),
        None => left_out(stdout),
    }
}

fn read_sites(stdout: Stdout, e: Table, made: usize) -> io::Result<()> {
    read_site(stdout, e, made, 512, 0, STORE_WORDS)?;
    read_site(stdout, e, made, 512, 1, STORE_WORDS)?;
    read_site(stdout, e, made, 512, 65520, STORE_WORDS)?;
    read_site(stdout, e, made, 512, 65521, STORE_WORDS)?;
    read_site(stdout, e, made, 512, 4294967297, STORE_WORDS)?;
    read_site(stdout, e, made, 512, 18446744073709551615, STORE_WORDS)
}

// A draft passes at every site; 24 stands before 11.
fn read_draft_sites(stdout: Stdout, e: Table) -> io::Result<()> {
    read_site(stdout, e, 0, 0, 0, STORE_WORDS)?;
    read_site(stdout, e, 0, 0, 65520, STORE_WORDS)?;
    read_site(stdout, e, 0, 0, 65521, STORE_WORDS)?;
    read_site(stdout, e, 0, 0, 65521, STORE_WORDS - 1)?;
    read_site(stdout, e, 0, 511, 65520, STORE_WORDS)?;
    read_site(stdout, e, 0, 511, 65521, STORE_WORDS)?;
    read_site(stdout, e, 0, 511, 65521, STORE_WORDS - 1)
}

fn sites(stdout: Stdout) -> io::Result<()> {
    let mut e = [0u64; STORE_WORDS];
    put_table(stdout, &mut e, b"0", b"2", b"00 12")?;
    write_sites(stdout, &e)?;
    let table = Table::new(&e, 3, 0);
    println!(stdout; "read E at a site")?;
    read_sites(stdout, table, 0)?;
    read_sites(stdout, table, 1)?;
    read_sites(stdout, table, 65520)?;
    read_draft_sites(stdout, table)
}

// ---- round trips

const TABLES: usize = 300;

// Generated table t written for site t and read back there: the file, of one block unless it is refused, and the store are taken into a digest.
fn round_trip(stdout: Stdout, d: usize, t: usize) -> io::Result<usize> {
    let mut store = [0u64; STORE_WORDS];
    let mut file = [7u8; 512];
    let mut back = [7u64; STORE_WORDS];
    generate(stdout, &mut store, t)?;
    let _ = write(&store, states_of(t), groups_of(t), t, &mut file);
    let _ = read(&file, t, &mut back);
    Ok(digest_words(digest_all(d, &file), &back))
}

fn round_trips(stdout: Stdout) -> io::Result<usize> {
    let mut d = 0;
    for t in 0..TABLES {
        d = round_trip(stdout, d, t)?;
    }
    Ok(d)
}

fn main(rt: HostRuntime) -> io::Result<()> {
    let stdout = rt.stdout();
    table_e(stdout)?;
    table_resting(stdout)?;
    table_with_more(stdout)?;
    table_full(stdout)?;
    table_h(stdout)?;
    table_largest(stdout)?;
    sites(stdout)?;
    let d = round_trips(stdout)?;
    println!(stdout; "round trips {TABLES}, digest {d}")
}
