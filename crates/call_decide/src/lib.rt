// The call `decide`: the rounds of a table that a store holds, and the path where they say unsafe.
//
//   accept_check      the store, where a check is accepted
//   Verdict, decide   the call
#![tactic(auto)]

ghost use Rattle.std.specs.Prelude.{◌≡◌, IfOk};
ghost use Rattle.basics.specs.Refusals.{refuse};
ghost use Rattle.core_refusals.specs.Refusals.{number_of};
ghost use Rattle.model.specs.Calls.{decide_grounds};
ghost use Rattle.call_decide.specs.DecideAnswers.{CalledDecide};

use call_paths::find_path;
use core_refusals::Refusal;
use core_rounds::{Ending, MAX_ALLOWANCE, run};
use core_rows::{Steps, forbidden};
use core_state_set::{MAX_STATES, StateSet};
use core_table::{GROUPS_AT, Store, accept};

// The store, where a check with this allowance is accepted and the path has so much room.
fn accept_check(
    store: &[u64],
    n: usize,
    g: usize,
    allowance: usize,
    room: usize,
) -> Result<Store<'_>, Refusal>
    ensures { (number_of result ≡ refuse (decide_grounds store.now n g allowance room)) × IfOk result (λ held. held.words.now ≡ store.now) }
{
    let store = accept(store, n, g)?;
    if MAX_ALLOWANCE < allowance {
        return Err(Refusal::Allowance);
    }
    if room < MAX_STATES {
        return Err(Refusal::PathShort);
    }
    Ok(store)
}

// The verdicts, each with its count of refinements: safe with the invariant and the number of its states, unsafe with the steps of the path.
#[derive(Clone, Copy, Debug, PartialEq, Eq)]
pub enum Verdict {
    Safe {
        count: usize,
        invariant: StateSet,
        size: usize,
    },
    Unsafe {
        count: usize,
        steps: usize,
    },
    Undecided {
        count: usize,
    },
}

pub fn decide(
    store: &[u64],
    n: usize,
    g: usize,
    allowance: usize,
    path: &mut [u16],
) -> Result<Verdict, Refusal>
    ensures { CalledDecide store.now n g allowance path.old result path.new }
{
    let store = accept_check(store, n, g, allowance, path.len())?;
    let initial = store.initial();
    let forbidden = forbidden(store, n);
    let steps = Steps::of(store);
    let ending = run(
        steps,
        &store.words[GROUPS_AT..],
        g,
        n,
        initial,
        forbidden,
        allowance,
    );
    Ok(match ending {
        Ending::Safe { count, invariant } => Verdict::Safe {
            count,
            invariant,
            size: invariant.count(),
        },
        Ending::Unsafe { count } => Verdict::Unsafe {
            count,
            // kept: unsafe has a path, so the 0 for none is never seen; an Option would be asked for by each who reads the steps
            steps: find_path(steps, n, initial, forbidden, path).unwrap_or(0),
        },
        Ending::Undecided { count } => Verdict::Undecided { count },
    })
}
