// What reading and writing a file share (the specification, "Files").
//
//   BLOCK, CONTENT_BYTES                     a block's bytes, and those of its content
//   CONTENT_AT, CHECK_AT                     where its content begins, and its check
//   HEADER                                   the content bytes of n and of the second number, before the sets
//   MAX_FILE, JOINED_ROOM                    the length of the largest file, and the bytes that its contents take, joined
//   Form, head_sets, added                   the form of a file; its sets before the groups, how many; what its second number has more than g
//   le16_at                                  the number whose two bytes stand at a place, low byte first
//   copy_content                             the content of a block, copied
//   MODULUS, MAX_SITE, Site                  the prime of the checksum; the greatest site number; the number of a site
//   checksum_of                              the checksum of a block for a site (01: its check)
//   whole_chunks                             the part of its sum that is taken a chunk at a time, LANES bytes side by side
//   add_lanes, add_bytes                     a row of lanes, or a chunk of bytes, added to a row of lanes
//   lanes_sum                                the weighted sum that two rows stand for
//   Counts                                   how many states and groups a table has
//     set_width, set_count                   the bytes of a set, and how many sets its file has
//     content_length                         the bytes of its contents (L)
//   blocks_for                               the blocks that hold so many bytes
#![tactic(auto)]

ghost use Rattle.std.specs.Prelude.{◌+◌, ◌*◌, ◌≤◌, ◌<◌, ◌≡◌, length, take, drop};
ghost use Rattle.model.specs.Sets.{max_states};
ghost use Rattle.model.specs.Stores.{head_sets, max_groups};
ghost use Rattle.model.specs.Blocks.{content_bytes, check_at, max_site, le16_at, blocks_for, weighted, check_of};
ghost use Rattle.model.specs.Contents.{new_form, heads, added, set_width, content_length};
ghost use Rattle.model.specs.Calls.{overwrite};
ghost use Rattle.file_blocks.specs.Lanes.{lanes, chunks, byte_most, lane_most, lanes_sum, plus, Most};
ghost use Rattle.file_blocks.specs.Forms.{form_of};

use core_state_set::MAX_STATES;
use core_table::{HEAD_SETS, MAX_GROUPS};

pub const BLOCK: usize = 512;

pub const CONTENT_BYTES: usize = 508;

pub const CONTENT_AT: usize = 2;

pub const CHECK_AT: usize = 510;

pub const HEADER: usize = 4;

// The length of the largest file, of either form.
pub const MAX_FILE: usize = BLOCK
    * ((HEADER + (MAX_STATES + 7) / 8 * (HEAD_SETS + MAX_GROUPS + MAX_STATES) + CONTENT_BYTES - 1)
        / CONTENT_BYTES);

// The content bytes of the largest file.
pub const JOINED_ROOM: usize = CONTENT_BYTES * (MAX_FILE / BLOCK);

// The sets before the groups of a file of the old form: initial and marked.
const OLD_HEAD_SETS: usize = 2;

// What the new form adds to g in the second number of a file.
const ADDED_TO_G: usize = 32768;

// The prime of the check.
const MODULUS: u32 = 65521;

pub const MAX_SITE: usize = MODULUS as usize - 1;

// The number of a site.
// kept: no TryFrom: both callers test the number among their other grounds, in order, and its error would be made to be dropped
#[derive(Clone, Copy)]
pub struct Site {
    pub number: usize,
    ghost known: { number ≤ max_site },
}

// The old form has no resting states.
#[derive(Clone, Copy, Debug, PartialEq, Eq)]
pub enum Form {
    Old,
    New,
}

pub fn head_sets(form: Form) -> usize
    ensures { (result ≡ heads (form_of form)) × (result ≤ head_sets) }
{
    match form {
        Form::Old => OLD_HEAD_SETS,
        Form::New => HEAD_SETS,
    }
}

pub fn added(form: Form) -> usize
    ensures { (result ≡ added (form_of form)) × (result < 65536) }
{
    match form {
        Form::Old => 0,
        Form::New => ADDED_TO_G,
    }
}

pub fn le16_at(bytes: &[u8], i: usize) -> usize
    requires { i + 1 < length bytes.now }
    ensures { result ≡ le16_at bytes.now i }
{
    usize::from(u16::from_le_bytes([bytes[i], bytes[i + 1]]))
}

// The content of a block, from byte `from` of some bytes on, to the front of what is lent.
pub fn copy_content(bytes: &[u8], from: usize, out: &mut [u8])
    requires { (from + content_bytes ≤ length bytes.now) × (content_bytes ≤ length out.old) }
    ensures { out.new ≡ overwrite (take content_bytes (drop from bytes.now)) out.old }
{
    out[..CONTENT_BYTES].copy_from_slice(&bytes[from..from + CONTENT_BYTES]);
}

// The bytes of a chunk, which are summed side by side. With fewer lanes the compiler writes the loops over them out, and then makes worse vectors.
const LANES: usize = 64;

// The whole chunks before the check. They are so few that no lane outgrows 16 bits.
const CHUNKS: usize = CHECK_AT / LANES;

// kept: one function of both would be generic in what converts into u16, its contract longer than the two.
fn add_lanes(sums: &[u16; LANES], turns: &mut [u16; LANES])
    requires { Most (byte_most * chunks) sums.now × Most (byte_most * chunks * chunks) turns.old }
    ensures { turns.new ≡ plus turns.old sums.now }
{
    for (l, turn) in turns.iter_mut().enumerate() {
        *turn += sums[l];
    }
}

fn add_bytes(block: &[u8], from: usize, sums: &mut [u16; LANES])
    requires { (from + lanes ≤ length block.now) × Most (byte_most * chunks) sums.old }
    ensures { (sums.new ≡ plus sums.old (take lanes (drop from block.now))) × Most byte_most (take lanes (drop from block.now)) }
{
    for (l, sum) in sums.iter_mut().enumerate() {
        *sum += u16::from(block[from + l]);
    }
}

// The weighted sum that two rows stand for: a byte of `sums` counts as in the first chunk, and each turn as a chunk more.
fn lanes_sum(sums: &[u16; LANES], turns: &[u16; LANES]) -> u32
    ensures { (result ≡ lanes_sum 0 sums.now turns.now lanes) × (result ≤ 2 * lanes * lane_most * lanes) }
{
    let mut sum: u32 = 0;
    for (l, byte_sum) in sums.iter().enumerate() {
        sum += LANES as u32 * u32::from(turns[l]) + (l as u32 + 1) * u32::from(*byte_sum);
    }
    sum
}

// The weighted sum of the whole chunks, from the last to the first: a byte counts once in its lane of `sums`, and in `turns` once for each chunk
// before its own.
fn whole_chunks(block: &[u8]) -> u32
    requires { check_at ≤ length block.now }
    ensures { (result ≡ weighted block.now (lanes * chunks)) × (result ≤ 2 * lanes * lane_most * lanes) }
{
    let mut sums = [0u16; LANES];
    let mut turns = [0u16; LANES];
    // kept: by place, as the weights of the contract go; `chunks_exact(LANES).rev()` is no plainer
    for k in (0..CHUNKS).rev() {
        add_lanes(&sums, &mut turns);
        add_bytes(block, LANES * k, &mut sums);
    }
    lanes_sum(&sums, &turns)
}

// The sum starts from the site and the whole chunks. It stays below 2^32, so it is reduced once, at the end.
pub fn checksum_of(block: &[u8], site: Site) -> usize
    requires { check_at ≤ length block.now }
    ensures { result ≡ check_of site.number block.now }
{
    let mut sum: u32 = site.number as u32 + whole_chunks(block);
    // kept: `block[..CHECK_AT].iter().enumerate().skip(LANES * CHUNKS)` names each byte, and is no plainer.
    for i in LANES * CHUNKS..CHECK_AT {
        sum += (i as u32 + 1) * u32::from(block[i]);
    }
    (sum % MODULUS) as usize
}

// How many states and groups a table has: no more than the store has room for.
#[derive(Clone, Copy)]
pub struct Counts {
    pub n: usize,
    pub g: usize,
    ghost small: { n ≤ max_states },
    ghost few: { g ≤ max_groups },
}

impl Counts {
    pub fn set_width(self) -> usize
        ensures { result ≡ set_width self.n }
    {
        (self.n + 7) / 8
    }

    pub fn set_count(self, form: Form) -> usize
        ensures { (result ≡ heads (form_of form) + self.g + self.n) × (result ≤ head_sets + max_groups + max_states) }
    {
        head_sets(form) + self.g + self.n
    }

    pub fn content_length(self, form: Form) -> usize
        ensures { (result ≡ content_length (form_of form) self.n self.g) × (result ≤ content_length new_form max_states max_groups) }
    {
        HEADER + self.set_width() * self.set_count(form)
    }
}

pub fn blocks_for(l: usize) -> usize
    requires { l ≤ content_length new_form max_states max_groups }
    ensures { result ≡ blocks_for l }
{
    (l + CONTENT_BYTES - 1) / CONTENT_BYTES
}
