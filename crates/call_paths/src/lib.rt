// Paths to a forbidden state (the specification, "Paths"): the path that the specification names, and the calls shortest path and within.
//
//   stepping_into                     the states of a set that step into another
//   first_layer                       outward from a set, layer by layer: how many steps lead to a forbidden state; put_row: a layer in its row
//   narrow_back                       the layers back from the last, with what leads on alone
//   smallest_in_layer, write_path     a state of the path; the path, state by state
//   find_path                         the steps of the path, if there is one, and the path at the front of a buffer
//   is_within                         whether what was found is at most k steps away
//   shortest_path, within             the calls
//
// What works on a table is lent its rows, and its sets by value; find_path asks that the table is well formed. The calls are lent a store, work out its
// forbidden states once, and ask for nothing.
#![tactic(auto)]

ghost use Rattle.std.specs.Prelude.{◌≡◌, ◌≤◌, ◌<◌, length, set as replaced, []};
ghost use Rattle.std.proofs.lemmas.List.Edits.{sets as replacedFrom};
ghost use Rattle.model.specs.Sets.{max_states};
ghost use Rattle.core_rows.specs.Rows.{table_on};
ghost use Rattle.call_paths.specs.Search.{HoldsTable, first_layer, steps_within, LayersUpTo, stepping_into, narrowed_back, smallest_in, walk_by, Writable};
ghost use Rattle.call_paths.specs.PathAnswers.{found_in, path_written, CalledShortest};
ghost use Rattle.call_paths.specs.Within.{CalledWithin};

use core_reach::newly_reached;
use core_refusals::Refusal;
use core_rows::{Rows, Steps, forbidden, row_of};
use core_state_set::{MAX_STATES, StateSet, WORDS};
use core_table::accept;

// The states of x that step to a state of y: those that are not in hold of all other states.
pub fn stepping_into(steps: Steps, x: StateSet, y: StateSet) -> StateSet
    ensures { result.words ≡ stepping_into steps.entry.words.now x.words y.words }
{
    let others = StateSet::first_states(MAX_STATES).difference(y);
    x.difference(steps.meet_hold(x, others))
}

// ---- the shortest path

// x in row i, if there is one.
fn put_row(layers: &mut [[u64; WORDS]], i: usize, x: StateSet)
    ensures { layers.new ≡ replaced layers.old i x.words }
{
    // kept: no get_mut, after which the rows are not known: the proof stopped at `returns-in-Some`
    if i < layers.len() {
        let words = x.words;
        layers[i] = words;
    }
}

// Outward from `from`, layer by layer: layer i is the states that i steps lead to and no fewer, and is put down in row i, as far as there are rows. The
// search ends with the first layer that holds a forbidden state, of which only those states are put down, or when a layer brings no new state. The
// answer is the number of that layer, if there is one.
fn first_layer(
    steps: Steps,
    from: StateSet,
    forbidden: StateSet,
    layers: &mut [[u64; WORDS]],
) -> Option<usize>
    ensures { (result ≡ first_layer steps.entry.words.now from.words forbidden.words)
        × LayersUpTo steps.entry.words.now from.words forbidden.words (length layers.old) result layers.new }
{
    let mut found = from;
    let mut layer = from;
    for d in 0..MAX_STATES {
        if layer.is_empty() {
            return None;
        }
        if layer.meets(forbidden) {
            put_row(layers, d, layer.meet(forbidden));
            return Some(d);
        }
        put_row(layers, d, layer);
        layer = newly_reached(steps, layer, found);
        found = found.union(layer);
    }
    None
}

// Back from layer d: of each layer are kept the states that step to a state kept of the next.
fn narrow_back(steps: Steps, layers: &mut Rows, d: usize)
    requires { d < max_states }
    ensures { layers.new ≡ narrowed_back steps.entry.words.now d layers.old }
{
    // kept: row i is written while row i + 1 is read, which an iterator does not lend
    for i in (0..d).rev() {
        let next = row_of(layers, i + 1);
        let words = stepping_into(steps, row_of(layers, i), next).words;
        layers[i] = words;
    }
}

// The smallest state of x in layer i, or MAX_STATES.
// kept: a number for none: a path goes on, so none is never seen, and `walk_by` of the contract goes by numbers
fn smallest_in_layer(layers: &Rows, i: usize, x: StateSet) -> usize
    requires { i < max_states }
    ensures { result ≡ smallest_in layers.now i x.words }
{
    x.meet(row_of(layers, i)).smallest()
}

// State s at `at` in the buffer, and then the path of d steps from it: the smallest of its successors in the next layer, with one step fewer. It is
// handed a state and not a set, which each of up to MAX_STATES calls would keep on the stack.
fn write_path(steps: Steps, layers: &Rows, s: usize, d: usize, path: &mut [u16], at: usize)
    requires { Writable steps.words.now layers.now s d (length path.old) at }
    ensures { path.new ≡ replacedFrom path.old at (walk_by steps.entry.words.now layers.now at d s) }
{
    path[at] = s as u16;
    if 0 < d {
        let next = smallest_in_layer(layers, at + 1, steps.row(s));
        write_path(steps, layers, next, d - 1, path, at + 1);
    }
}

// The path that the specification names, at the front of the buffer; the answer is its steps, if there is one.
// kept: what HoldsTable is of apart, as in all_distances of call_distances; and the buffer apart from its steps, as C lends it
pub fn find_path(
    steps: Steps,
    n: usize,
    initial: StateSet,
    forbidden: StateSet,
    path: &mut [u16],
) -> Option<usize>
    requires { HoldsTable steps.words.now n initial.words forbidden.words × (max_states ≤ length path.old) }
    ensures { (result ≡ found_in (table_on n initial.words forbidden.words [] steps.entry.words.now))
        × (path.new ≡ path_written (table_on n initial.words forbidden.words [] steps.entry.words.now) path.old) }
{
    let mut layers = [[0; WORDS]; MAX_STATES];
    let d = first_layer(steps, initial, forbidden, &mut layers)?;
    narrow_back(steps, &mut layers, d);
    let first = smallest_in_layer(&layers, 0, initial);
    write_path(steps, &layers, first, d, path, 0);
    Some(d)
}

// The steps of a shortest path, if there is one.
pub fn shortest_path(
    store: &[u64],
    n: usize,
    g: usize,
    path: &mut [u16],
) -> Result<Option<usize>, Refusal>
    ensures { CalledShortest store.now n g path.old result path.new }
{
    let store = accept(store, n, g)?;
    if path.len() < MAX_STATES {
        return Err(Refusal::PathShort);
    }
    Ok(find_path(
        Steps::of(store),
        n,
        store.initial(),
        forbidden(store, n),
        path,
    ))
}

// ---- within

// What was found is at most k steps away.
fn is_within(found: Option<usize>, k: usize) -> bool
    ensures { result ≡ steps_within found k }
{
    found.map_or(false, |d| d <= k)
}

// Is there a path of at most k steps? The layers of the search are not kept.
pub fn within(store: &[u64], n: usize, g: usize, k: usize) -> Result<bool, Refusal>
    ensures { CalledWithin store.now n g k result }
{
    let store = accept(store, n, g)?;
    let found = first_layer(
        Steps::of(store),
        store.initial(),
        forbidden(store, n),
        &mut [],
    );
    Ok(is_within(found, k))
}
