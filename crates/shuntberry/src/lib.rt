// The calls for C (include/shuntberry.h). Each only calls the call of the same name and lays its answer out as C reads it (`shuntberry_fields`).
// kept: n and g beside each store, and add_step and remove_step as two functions: C has them so.
#![tactic(auto)]

ghost use Rattle.std.specs.Prelude.{◌≡◌, length};
ghost use Rattle.model.specs.Sets.{empty};
ghost use Rattle.model.specs.Calls.{decide_answer, decide_buffer, shortest_answer, shortest_buffer, read_answer, read_buffer, write_answer, write_buffer};
ghost use Rattle.call_paths.specs.Within.{within_answer};
ghost use Rattle.call_distances.specs.Distances.{distances_answer, distances_buffer};
ghost use Rattle.call_check.specs.CheckAnswers.{check_answer, check_buffer};
ghost use Rattle.call_rewrite.specs.RewriteAnswers.{rewrite_answer, rewrite_buffer};
ghost use Rattle.call_generate.specs.Load.{generate_answer, generate_buffer};
ghost use Rattle.call_replay.specs.Logs.{replay_answer};
ghost use Rattle.call_edit_session.specs.Edits.{add, remove, open_answer, edit_answer, edit_buffer};
ghost use Rattle.call_modal.specs.Modal.{modal_answer, modal_buffer};
ghost use Rattle.call_release_windows.specs.WindowAnswers.{next_open_answer};
ghost use Rattle.shuntberry_fields.specs.Version.{version};
ghost use Rattle.shuntberry_fields.specs.Fields.{refusal_number, decision_fields, shortest_fields, within_fields, table_fields, file_fields, replay_fields, session_fields, modal_fields, minute_fields, check_fields};

use call_check::check;
use call_decide::decide;
use call_edit_session::{add_step, open, remove_step};
use call_generate::generate;
use call_modal::decide_modal;
use call_paths::{shortest_path, within};
use call_release_windows::next_open;
use call_replay::replay;
use call_rewrite::rewrite;
use core_state_set::StateSet;
use file_reading::read;
use file_writing::write;
use shuntberry_fields::{
    CheckedFields, DecisionFields, FileFields, MinuteFields, ModalFields, ReplayFields,
    SessionFields, SetFields, ShortestFields, TableFields, WithinFields, lay_out_check,
    lay_out_decision, lay_out_done, lay_out_file, lay_out_minute, lay_out_modal, lay_out_replay,
    lay_out_session, lay_out_shortest, lay_out_table, lay_out_within,
};

// ---- the version

const VERSION: u32 = 6;

#[unsafe(no_mangle)]
pub extern "C" fn shuntberry_version() -> u32
    ensures { result ≡ version }
{
    VERSION
}

// ---- decide

#[unsafe(no_mangle)]
pub extern "C" fn shuntberry_decide(
    store: &[u64],
    n: usize,
    g: usize,
    allowance: usize,
    path: &mut [u16],
) -> DecisionFields
    ensures { (result ≡ decision_fields (decide_answer store.now n g allowance (length path.old)))
        × (path.new ≡ decide_buffer store.now n g allowance path.old) }
{
    lay_out_decision(decide(store, n, g, allowance, path))
}

// ---- check: from a file's bytes to the text and the verdict

#[unsafe(no_mangle)]
pub extern "C" fn shuntberry_check(input: &[u8], site: usize, text: &mut [u8]) -> CheckedFields
    ensures { (result ≡ check_fields (check_answer input.now site (length text.old)))
        × (text.new ≡ check_buffer input.now site text.old) }
{
    lay_out_check(check(input, site, text))
}

// ---- shortest path

#[unsafe(no_mangle)]
pub extern "C" fn shuntberry_shortest_path(
    store: &[u64],
    n: usize,
    g: usize,
    path: &mut [u16],
) -> ShortestFields
    ensures { (result ≡ shortest_fields (shortest_answer store.now n g (length path.old)))
        × (path.new ≡ shortest_buffer store.now n g path.old) }
{
    lay_out_shortest(shortest_path(store, n, g, path))
}

// ---- distances

#[unsafe(no_mangle)]
pub extern "C" fn shuntberry_distances(
    store: &[u64],
    n: usize,
    g: usize,
    distances: &mut [u16],
) -> u32
    ensures { (result ≡ refusal_number (distances_answer store.now n g (length distances.old)))
        × (distances.new ≡ distances_buffer store.now n g distances.old) }
{
    lay_out_done(call_distances::distances(store, n, g, distances))
}

// ---- within

#[unsafe(no_mangle)]
pub extern "C" fn shuntberry_within(store: &[u64], n: usize, g: usize, k: usize) -> WithinFields
    ensures { result ≡ within_fields (within_answer store.now n g k) }
{
    lay_out_within(within(store, n, g, k))
}

// ---- read

#[unsafe(no_mangle)]
pub extern "C" fn shuntberry_read(input: &[u8], site: usize, store: &mut [u64]) -> TableFields
    ensures { (result ≡ table_fields (read_answer input.now site (length store.old)))
        × (store.new ≡ read_buffer input.now site store.old) }
{
    lay_out_table(read(input, site, store))
}

// ---- write

#[unsafe(no_mangle)]
pub extern "C" fn shuntberry_write(
    store: &[u64],
    n: usize,
    g: usize,
    site: usize,
    output: &mut [u8],
) -> FileFields
    ensures { (result ≡ file_fields (write_answer store.now n g site (length output.old)))
        × (output.new ≡ write_buffer store.now n g site output.old) }
{
    lay_out_file(write(store, n, g, site, output))
}

#[unsafe(no_mangle)]
pub extern "C" fn shuntberry_rewrite(input: &[u8], output: &mut [u8]) -> FileFields
    ensures { (result ≡ file_fields (rewrite_answer input.now (length output.old)))
        × (output.new ≡ rewrite_buffer input.now output.old) }
{
    lay_out_file(rewrite(input, output))
}

// ---- generate

#[unsafe(no_mangle)]
pub extern "C" fn shuntberry_generate(seed: u32, n: usize, fan_out: usize, store: &mut [u64]) -> u32
    ensures { (result ≡ refusal_number (generate_answer n fan_out (length store.old)))
        × (store.new ≡ generate_buffer seed n fan_out store.old) }
{
    lay_out_done(generate(seed, n, fan_out, store))
}

// ---- replay

#[unsafe(no_mangle)]
pub extern "C" fn shuntberry_replay(store: &[u64], n: usize, g: usize, log: &[u8]) -> ReplayFields
    ensures { result ≡ replay_fields (replay_answer store.now n g log.now) }
{
    lay_out_replay(replay(store, n, g, log))
}

// ---- edit sessions

#[unsafe(no_mangle)]
pub extern "C" fn shuntberry_open(store: &[u64], n: usize, g: usize) -> SessionFields
    ensures { result ≡ session_fields empty (open_answer store.now n g) }
{
    lay_out_session(StateSet::empty(), open(store, n, g))
}

#[unsafe(no_mangle)]
pub extern "C" fn shuntberry_add_step(
    store: &mut [u64],
    n: usize,
    g: usize,
    reachable: SetFields,
    from: usize,
    to: usize,
) -> SessionFields
    ensures { (result ≡ session_fields reachable.words (edit_answer store.old n g reachable.words (add from to)))
        × (store.new ≡ edit_buffer store.old n g (add from to)) }
{
    let handed = StateSet::from(reachable);
    lay_out_session(handed, add_step(store, n, g, handed, from, to))
}

#[unsafe(no_mangle)]
pub extern "C" fn shuntberry_remove_step(
    store: &mut [u64],
    n: usize,
    g: usize,
    reachable: SetFields,
    from: usize,
    to: usize,
) -> SessionFields
    ensures { (result ≡ session_fields reachable.words (edit_answer store.old n g reachable.words (remove from to)))
        × (store.new ≡ edit_buffer store.old n g (remove from to)) }
{
    let handed = StateSet::from(reachable);
    lay_out_session(handed, remove_step(store, n, g, handed, from, to))
}

// ---- decide, with possible steps

#[unsafe(no_mangle)]
pub extern "C" fn shuntberry_decide_modal(
    store: &[u64],
    n: usize,
    g: usize,
    possible: &[u64],
    path: &mut [u16],
) -> ModalFields
    ensures { (result ≡ modal_fields (modal_answer store.now n g possible.now (length path.old)))
        × (path.new ≡ modal_buffer store.now n g possible.now path.old) }
{
    lay_out_modal(decide_modal(store, n, g, possible, path))
}

// ---- next open minute

#[unsafe(no_mangle)]
pub extern "C" fn shuntberry_next_open(
    time: usize,
    windows: &[u64],
    closed_days: &[u32],
) -> MinuteFields
    ensures { result ≡ minute_fields (next_open_answer time windows.now closed_days.now) }
{
    lay_out_minute(next_open(time, windows, closed_days))
}
