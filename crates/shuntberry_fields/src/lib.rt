// What C reads of an answer and of a refusal: the structs of include/shuntberry.h, and the answer of each call laid out in its struct. specs/Fields says the
// numbers, for an answer and for a refusal; specs/FailsSafe, that no field that answers has a number of an answer where the call is refused.
//
//   lay_out_CALL                          the fields of an answer or a refusal
//   lay_out_checked                       of check: those of an answer
//   lay_out_done                          of distances and generate: the refusal alone, or 0
//   refused_decision, refused_modal       those of a refusal
#![tactic(auto)]

ghost use Rattle.std.specs.Prelude.{◌≡◌, ◌≤◌};
ghost use Rattle.basics.specs.Refusals.{refused};
ghost use Rattle.core_refusals.specs.Refusals.{number, answer_of};
ghost use Rattle.model.specs.Sets.{max_states};
ghost use Rattle.model.specs.Files.{max_file};
ghost use Rattle.model.proofs.RangesOfAnswers.{DecisionRange, ReadRange};
ghost use Rattle.call_decide.specs.DecideAnswers.{decided_of};
ghost use Rattle.call_paths.specs.PathAnswers.{shortest_of};
ghost use Rattle.call_paths.specs.Within.{within_of};
ghost use Rattle.file_reading.specs.ReadAnswers.{read_of};
ghost use Rattle.file_writing.specs.WriteAnswers.{written_of};
ghost use Rattle.call_check.specs.CheckAnswers.{verdict_of, checked_of};
ghost use Rattle.call_replay.specs.ReplayAnswers.{replayed_of};
ghost use Rattle.call_replay.proofs.ReplayRanges.{ReplayRange};
ghost use Rattle.call_edit_session.specs.SessionAnswers.{session_of};
ghost use Rattle.call_modal.specs.ModalAnswers.{modal_decided_of};
ghost use Rattle.call_modal.proofs.ModalRanges.{ModalRange};
ghost use Rattle.call_release_windows.specs.WindowAnswers.{opening_of};
ghost use Rattle.shuntberry_fields.specs.Small.{WhereAnswered};
ghost use Rattle.shuntberry_fields.specs.Fields.{refusal_number, decision_fields, shortest_fields, within_fields, table_fields, file_fields, replay_fields, session_fields, modal_fields, minute_fields, checked_fields, check_fields};

use call_check::{Checked, FileVerdict};
use call_decide::Verdict;
use call_modal::ModalVerdict;
use call_replay::Walk;
use core_refusals::Refusal;
use core_state_set::{StateSet, WORDS};
use file_reading::TableSize;

// What stands where a refused call has no answer (specs/Fields).
// kept: numbers for none, and structs that are alike but for their fields: C reads them (include/shuntberry.h)
const NO_VERDICT: u32 = 255;

const NO_ANSWER: u32 = 255;

const NO_TABLE: u32 = 65_535;

const NO_MINUTE: u32 = 4_294_967_295;

// ---- decide

#[repr(C)]
#[derive(Clone, Copy)]
pub struct DecisionFields {
    pub invariant: [u64; WORDS],
    pub refusal: u32,
    pub verdict: u32,
    pub count: u32,
    pub size: u32,
    pub steps: u32,
    pub reserved: u32,
}

fn refused_decision(refusal: Refusal) -> DecisionFields
    ensures { result ≡ decision_fields (refused (number refusal)) }
{
    let none = StateSet::empty();
    let invariant = none.words;
    DecisionFields {
        invariant,
        refusal: u32::from(refusal),
        verdict: NO_VERDICT,
        count: 0,
        size: 0,
        steps: 0,
        reserved: 0,
    }
}

// kept: functions, and no From, in one way for all: most ask that the answer's numbers fit in 32 bits, and From asks nothing.
pub fn lay_out_decision(answer: Result<Verdict, Refusal>) -> DecisionFields
    requires { WhereAnswered DecisionRange (decided_of answer) }
    ensures { result ≡ decision_fields (decided_of answer) }
{
    let none = StateSet::empty();
    let empty = none.words;
    match answer {
        Ok(
            Verdict::Safe {
                count,
                invariant,
                size,
            },
        ) => {
            let words = invariant.words;
            DecisionFields {
                invariant: words,
                refusal: 0,
                verdict: 0,
                count: count as u32,
                size: size as u32,
                steps: 0,
                reserved: 0,
            }
        }
        Ok(Verdict::Unsafe { count, steps }) => DecisionFields {
            invariant: empty,
            refusal: 0,
            verdict: 1,
            count: count as u32,
            size: 0,
            steps: steps as u32,
            reserved: 0,
        },
        Ok(Verdict::Undecided { count }) => DecisionFields {
            invariant: empty,
            refusal: 0,
            verdict: 2,
            count: count as u32,
            size: 0,
            steps: 0,
            reserved: 0,
        },
        Err(refusal) => refused_decision(refusal),
    }
}

// ---- check: from a file's bytes to the text and the verdict

// `file_refusal` is the number with which read refuses the file.
#[repr(C)]
#[derive(Clone, Copy)]
pub struct CheckedFields {
    pub length: usize,
    pub n: usize,
    pub refusal: u32,
    pub file_refusal: u32,
    pub verdict: u32,
    pub reserved: u32,
}

pub fn lay_out_check(answer: Result<Checked, Refusal>) -> CheckedFields
    ensures { result ≡ check_fields (checked_of answer) }
{
    match answer {
        Ok(checked) => lay_out_checked(checked.length, checked.verdict),
        Err(refusal) => CheckedFields {
            length: 0,
            n: NO_TABLE as usize,
            refusal: u32::from(refusal),
            file_refusal: 0,
            verdict: NO_VERDICT,
            reserved: 0,
        },
    }
}

fn lay_out_checked(length: usize, verdict: FileVerdict) -> CheckedFields
    ensures { result ≡ checked_fields length (verdict_of verdict) }
{
    match verdict {
        FileVerdict::Safe { n } => CheckedFields {
            length,
            n,
            refusal: 0,
            file_refusal: 0,
            verdict: 0,
            reserved: 0,
        },
        FileVerdict::Unsafe { n } => CheckedFields {
            length,
            n,
            refusal: 0,
            file_refusal: 0,
            verdict: 1,
            reserved: 0,
        },
        FileVerdict::Refused(refusal) => CheckedFields {
            length,
            n: NO_TABLE as usize,
            refusal: 0,
            file_refusal: u32::from(refusal),
            verdict: NO_VERDICT,
            reserved: 0,
        },
    }
}

// ---- shortest path

#[repr(C)]
#[derive(Clone, Copy)]
pub struct ShortestFields {
    pub refusal: u32,
    pub found: u32,
    pub steps: u32,
}

pub fn lay_out_shortest(answer: Result<Option<usize>, Refusal>) -> ShortestFields
    requires { WhereAnswered (λ a. a.steps ≤ max_states) (shortest_of answer) }
    ensures { result ≡ shortest_fields (shortest_of answer) }
{
    match answer {
        Ok(Some(steps)) => ShortestFields {
            refusal: 0,
            found: 1,
            steps: steps as u32,
        },
        Ok(None) => ShortestFields {
            refusal: 0,
            found: 0,
            steps: 0,
        },
        Err(refusal) => ShortestFields {
            refusal: u32::from(refusal),
            found: NO_ANSWER,
            steps: 0,
        },
    }
}

// ---- distances and generate

// The refusal, or 0.
pub fn lay_out_done(answer: Result<(), Refusal>) -> u32
    ensures { result ≡ refusal_number (answer_of (λ done. done) answer) }
{
    match answer {
        Ok(()) => 0,
        Err(refusal) => u32::from(refusal),
    }
}

// ---- within

#[repr(C)]
#[derive(Clone, Copy)]
pub struct WithinFields {
    pub refusal: u32,
    pub within: u32,
}

pub fn lay_out_within(answer: Result<bool, Refusal>) -> WithinFields
    ensures { result ≡ within_fields (within_of answer) }
{
    match answer {
        Ok(true) => WithinFields {
            refusal: 0,
            within: 1,
        },
        Ok(false) => WithinFields {
            refusal: 0,
            within: 0,
        },
        Err(refusal) => WithinFields {
            refusal: u32::from(refusal),
            within: NO_ANSWER,
        },
    }
}

// ---- read

#[repr(C)]
#[derive(Clone, Copy)]
pub struct TableFields {
    pub refusal: u32,
    pub n: u32,
    pub g: u32,
}

pub fn lay_out_table(answer: Result<TableSize, Refusal>) -> TableFields
    requires { WhereAnswered ReadRange (read_of answer) }
    ensures { result ≡ table_fields (read_of answer) }
{
    match answer {
        Ok(size) => TableFields {
            refusal: 0,
            n: size.n as u32,
            g: size.g as u32,
        },
        Err(refusal) => TableFields {
            refusal: u32::from(refusal),
            n: NO_TABLE,
            g: NO_TABLE,
        },
    }
}

// ---- write

#[repr(C)]
#[derive(Clone, Copy)]
pub struct FileFields {
    pub refusal: u32,
    pub length: u32,
}

pub fn lay_out_file(answer: Result<usize, Refusal>) -> FileFields
    requires { WhereAnswered (λ l. l ≤ max_file) (written_of answer) }
    ensures { result ≡ file_fields (written_of answer) }
{
    match answer {
        Ok(length) => FileFields {
            refusal: 0,
            length: length as u32,
        },
        Err(refusal) => FileFields {
            refusal: u32::from(refusal),
            length: 0,
        },
    }
}

// ---- replay

#[repr(C)]
#[derive(Clone, Copy)]
pub struct ReplayFields {
    pub refusal: u32,
    pub followed: u32,
    pub seen: u32,
    pub percent: u32,
    pub remainder: u32,
}

pub fn lay_out_replay(answer: Result<Walk, Refusal>) -> ReplayFields
    requires { WhereAnswered ReplayRange (replayed_of answer) }
    ensures { result ≡ replay_fields (replayed_of answer) }
{
    match answer {
        Ok(walk) => ReplayFields {
            refusal: 0,
            followed: walk.followed as u32,
            seen: walk.seen as u32,
            percent: walk.percent as u32,
            remainder: walk.remainder as u32,
        },
        Err(refusal) => ReplayFields {
            refusal: u32::from(refusal),
            followed: 0,
            seen: 0,
            percent: 0,
            remainder: 0,
        },
    }
}

// ---- edit sessions

// The set that is handed in, by value.
#[repr(C)]
#[derive(Clone, Copy)]
pub struct SetFields {
    pub words: [u64; WORDS],
}

impl From<SetFields> for StateSet {
    ghost from_gives = { λ fields set. set.words ≡ fields.words };

    fn from(fields: SetFields) -> StateSet {
        let words = fields.words;
        StateSet { words }
    }
}

#[repr(C)]
#[derive(Clone, Copy)]
pub struct SessionFields {
    pub reachable: [u64; WORDS],
    pub refusal: u32,
    pub reserved: u32,
}

// A refused edit gives the set that was handed in, a refused opening the empty one.
pub fn lay_out_session(handed: StateSet, answer: Result<StateSet, Refusal>) -> SessionFields
    ensures { result ≡ session_fields handed.words (session_of answer) }
{
    match answer {
        Ok(states) => {
            let reachable = states.words;
            SessionFields {
                reachable,
                refusal: 0,
                reserved: 0,
            }
        }
        Err(refusal) => {
            let reachable = handed.words;
            SessionFields {
                reachable,
                refusal: u32::from(refusal),
                reserved: 0,
            }
        }
    }
}

// ---- decide, with possible steps

#[repr(C)]
#[derive(Clone, Copy)]
pub struct ModalFields {
    pub invariant: [u64; WORDS],
    pub refusal: u32,
    pub verdict: u32,
    pub size: u32,
    pub steps: u32,
}

fn refused_modal(refusal: Refusal) -> ModalFields
    ensures { result ≡ modal_fields (refused (number refusal)) }
{
    let none = StateSet::empty();
    let invariant = none.words;
    ModalFields {
        invariant,
        refusal: u32::from(refusal),
        verdict: NO_VERDICT,
        size: 0,
        steps: 0,
    }
}

pub fn lay_out_modal(answer: Result<ModalVerdict, Refusal>) -> ModalFields
    requires { WhereAnswered ModalRange (modal_decided_of answer) }
    ensures { result ≡ modal_fields (modal_decided_of answer) }
{
    let none = StateSet::empty();
    let empty = none.words;
    match answer {
        Ok(ModalVerdict::Safe { invariant, size }) => {
            let words = invariant.words;
            ModalFields {
                invariant: words,
                refusal: 0,
                verdict: 0,
                size: size as u32,
                steps: 0,
            }
        }
        Ok(ModalVerdict::Unsafe { steps }) => ModalFields {
            invariant: empty,
            refusal: 0,
            verdict: 1,
            size: 0,
            steps: steps as u32,
        },
        Ok(
            ModalVerdict::Depends {
                invariant,
                size,
                steps,
            },
        ) => {
            let words = invariant.words;
            ModalFields {
                invariant: words,
                refusal: 0,
                verdict: 3,
                size: size as u32,
                steps: steps as u32,
            }
        }
        Err(refusal) => refused_modal(refusal),
    }
}

// ---- next open minute

#[repr(C)]
#[derive(Clone, Copy)]
pub struct MinuteFields {
    pub refusal: u32,
    pub never: u32,
    pub minute: u32,
}

pub fn lay_out_minute(answer: Result<Option<u32>, Refusal>) -> MinuteFields
    ensures { result ≡ minute_fields (opening_of answer) }
{
    match answer {
        Ok(Some(minute)) => MinuteFields {
            refusal: 0,
            never: 0,
            minute,
        },
        Ok(None) => MinuteFields {
            refusal: 0,
            never: 1,
            minute: NO_MINUTE,
        },
        Err(refusal) => MinuteFields {
            refusal: u32::from(refusal),
            never: NO_ANSWER,
            minute: NO_MINUTE,
        },
    }
}
