// The order in which the first round expands states (the specification, "Rounds"): the call first order.
//
//   first_order                         the order in which the first round expands the states of R
#![tactic(auto)]

ghost use Rattle.call_first_order.specs.OrderAnswers.{CalledFirstOrder};

use core_fixpoints::{Cover, Expanded, forward};
use core_refusals::Refusal;
use core_rounds::{add_groups, narrow, not_forbidden};
use core_rows::{Steps, forbidden};
use core_state_set::{MAX_STATES, StateSet};
use core_table::{GROUPS_AT, accept};

// The order in which the first round of a table expands the states of R, for programs and tests.
pub fn first_order(store: &[u64], n: usize, g: usize) -> Result<Expanded, Refusal>
    ensures { CalledFirstOrder store.now n g result }
{
    let store = accept(store, n, g)?;
    let z = not_forbidden(n, forbidden(store, n));
    // kept: tried `[StateSet::first_states(n).words; MAX_STATES]`; the borrow checker stops at it, as in `run`
    let all = StateSet::first_states(n).words;
    let mut cover = [all; MAX_STATES];
    add_groups(&mut cover, &store.words[GROUPS_AT..], g);
    narrow(&mut cover, z);
    let reached = forward(Steps::of(store), Cover { rows: &cover }, store.initial(), z);
    Ok(reached.expanded)
}
