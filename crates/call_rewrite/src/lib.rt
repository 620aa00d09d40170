// The call `rewrite`: a file of the old form in, the same table in the new form out, with its dead ends resting (the specification, "Rewriting an old
// file").
//
//   rewrite          the new file at the front of the output and its length, or why the call is refused
//   rest_dead_ends   the states without a successor put to rest, and no other
#![tactic(auto)]

ghost use Rattle.std.specs.Prelude.{◌≡◌, ◌≤◌, length};
ghost use Rattle.model.specs.Stores.{store_words};
ghost use Rattle.call_rewrite.specs.RewriteAnswers.{rested_store, CalledRewrite};

use core_refusals::Refusal;
use core_rows::Steps;
use core_state_set::StateSet;
use core_table::{RESTING_AT, STORE_WORDS, Store, put_set};
use file_reading::read_old;
use file_writing::write;

// The site of both files.
const SITE: usize = 0;

pub fn rewrite(input: &[u8], output: &mut [u8]) -> Result<usize, Refusal>
    ensures { CalledRewrite input.now output.old result output.new }
{
    let mut store = [0u64; STORE_WORDS];
    let size = read_old(input, SITE, &mut store)?;
    rest_dead_ends(&mut store, size.n);
    write(&store, size.n, size.g, SITE, output)
}

// kept: a Store is lent to be read; one lent to be written would be a second type, made anew at each call
fn rest_dead_ends(store: &mut [u64], n: usize)
    requires { store_words ≤ length store.old }
    ensures { store.new ≡ rested_store store.old n }
{
    let steps = Steps::of(Store { words: store });
    let dead = steps.meet_hold(StateSet::first_states(n), StateSet::empty());
    put_set(store, RESTING_AT, dead);
}
