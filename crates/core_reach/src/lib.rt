// The states that a set of states reaches (forward reachability), by layers: each time only what is new is looked at.
//
//   newly_reached      the next layer: the successors of a layer that are not reached yet
//   reached            all states that a set reaches, itself included
#![tactic(auto)]

ghost use Rattle.std.specs.Prelude.{◌≡◌};
ghost use Rattle.model.specs.Sets.{difference};
ghost use Rattle.model.specs.Promises.{IsLeast};
ghost use Rattle.core_rows.specs.Rows.{successors_by};
ghost use Rattle.core_reach.specs.Reached.{reach_by};

use core_rows::Steps;
use core_state_set::StateSet;

// The successors of the states of the layer that are not among those found. It stays a function of its own, with the loop over the rows in it: apart
// from it, or put into the searches, the sets are held word by word, and open, add step and remove step take half as many instructions again.
#[inline(never)]
pub fn newly_reached(steps: Steps, layer: StateSet, found: StateSet) -> StateSet
    ensures { result.words ≡ difference (successors_by steps.entry.words.now layer.words) found.words }
{
    steps.successors(layer).difference(found)
}

// The least x with x = from union post(x).
pub fn reached(steps: Steps, from: StateSet) -> StateSet
    ensures { IsLeast (reach_by steps.entry.words.now from.words) result.words }
{
    let mut found = from;
    let mut layer = from;
    while !layer.is_empty() {
        layer = newly_reached(steps, layer, found);
        found = found.union(layer);
    }
    found
}
