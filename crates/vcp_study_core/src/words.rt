//! From words to a command.

ghost use Rattle.std.specs.Prelude.{ℕ, List, ◌≡◌, ◌≤◌, IfSome, Some, None, drop};
ghost use Rattle.std.specs.Option.{option_map};
ghost use Rattle.vcp_base.specs.Limits.{most_cycles, most_horizon};
ghost use Rattle.vcp_study_core.specs.Forms.{form, form_of, named_form, waves, waves_form, last_name as last_name_of};
ghost use Rattle.vcp_study_core.specs.Forms.{study, study_of, fault_study_of, last_horizon as last_horizon_of, ranges_form};
ghost use Rattle.vcp_study_core.specs.Forms.{inputs_form, cover_form, IsSound, IsSoundStudy};
ghost use Rattle.vcp_study_core.specs.Forms.{behind_form, class_form, cycles_in as cycles_in_of};
ghost use Rattle.vcp_study_core.specs.Forms.{next_by, next_of, behind_of, sum_form, chosen_of};
ghost use Rattle.vcp_study_core.specs.SumSteps.{as_next, as_behind, ended_of, IsFew, FewBehind};
ghost use Rattle.verdict_tables.specs.Parts.{most_parts};
ghost use Rattle.vcp_inputs.specs.Forms.{rows_of, AreFew};

use crate::command::{AloneStudy, Drawing, ImageStudy, ListStudy, StudyCommand};
use crate::part_words::{Named, PartWords};
use fault_cover::classes_named as cover_classes_named;
use fault_sites::{Chosen, Part, classes_named, run_class_named};
use pictures::{Period, period_named};
use vcp_base::{MOST_CYCLES, MOST_HORIZON, Text, Words, numeral, same_bytes};
use vcp_inputs::{CommandWords, RowsWord};
use verdict_tables::MOST_PARTS;

/// The command that the words say; None where they are none of the forms.
pub fn command_of(words: &Words) -> Option<StudyCommand<'_>>
    ensures form { option_map form result ≡ form_of words.now }
    ensures sound { IfSome result (λ command. IsSound (form command)) }
{
    let mut left = CommandWords::new(words);
    match left.next() {
        Some(command) => match left.name() {
            Some(name) => named_words(words, command.bytes(), name, &mut left),
            None => None,
        },
        None => None,
    }
}

/// The command that a name, a file's name and, of all words, those behind it say.
fn named_words<'a>(
    all: &'a Words,
    command: &[u8],
    name: &'a Text,
    words: &mut CommandWords<'a>,
) -> Option<StudyCommand<'a>>
    requires { words.old ≡ drop 2 all.now }
    ensures form { option_map form result ≡ named_form command.now name.now words.old }
    ensures sound { IfSome result (λ command. IsSound (form command)) }
{
    if same_bytes(command, b"waves") {
        return match period_said(words) {
            Some(period) => Some(StudyCommand::Waves { file: name, period }),
            None => None,
        };
    }
    if same_bytes(command, b"image") {
        return match words.code() {
            Some(code) => Some(StudyCommand::List {
                source: name,
                study: ListStudy::Image(code),
            }),
            None => None,
        };
    }
    if same_bytes(command, b"text") {
        return if words.is_end() {
            Some(StudyCommand::List {
                source: name,
                study: ListStudy::Text,
            })
        } else {
            None
        };
    }
    match study_words(all, command, words) {
        Some(study) => Some(StudyCommand::On { image: name, study }),
        None => None,
    }
}

/// The time that a cycle takes, where it is said behind FILE: `--cycle-time`, and TIME as the last word.
fn period_said(words: &mut CommandWords<'_>) -> Option<Option<Period>>
    ensures { (file : List ℕ) → option_map (waves file) result ≡ waves_form file words.old }
{
    let Some(option) = words.next() else {
        return Some(None);
    };
    if !same_bytes(option.bytes(), b"--cycle-time") {
        return None;
    }
    let Some(time) = words.next() else {
        return None;
    };
    match period_named(time.bytes()) {
        Some(period) => if words.is_end() {
            Some(Some(period))
        } else {
            None
        },
        None => None,
    }
}

/// What is done with an image, by a command's name and, of all words, those behind the image's name.
fn study_words<'a>(
    all: &'a Words,
    command: &[u8],
    words: &mut CommandWords<'a>,
) -> Option<ImageStudy<'a>>
    requires { words.old ≡ drop 2 all.now }
    ensures form { option_map study result ≡ study_of command.now words.old }
    ensures sound { IfSome result (λ s. IsSoundStudy (study s)) }
{
    if same_bytes(command, b"graph") {
        return match last_horizon(words) {
            Some(horizon) => Some(ImageStudy::Alone(AloneStudy::Drawn {
                horizon,
                drawing: Drawing::Picture,
            })),
            None => None,
        };
    }
    if same_bytes(command, b"dot") {
        return match last_horizon(words) {
            Some(horizon) => Some(ImageStudy::Alone(AloneStudy::Drawn {
                horizon,
                drawing: Drawing::Dot,
            })),
            None => None,
        };
    }
    if same_bytes(command, b"ranges") {
        return ranges_words(words);
    }
    if same_bytes(command, b"cover") {
        return cover_words(words);
    }
    fault_study_words(all, command, words)
}

/// The same of the studies of scripts of faults.
fn fault_study_words<'a>(
    all: &'a Words,
    command: &[u8],
    words: &mut CommandWords<'a>,
) -> Option<ImageStudy<'a>>
    requires { words.old ≡ drop 2 all.now }
    ensures form { option_map study result ≡ fault_study_of command.now words.old }
    ensures sound { IfSome result (λ s. IsSoundStudy (study s)) }
{
    if same_bytes(command, b"sites") {
        return match words.rows() {
            Some(rows) => behind_words(rows, words),
            None => None,
        };
    }
    if same_bytes(command, b"sum") {
        return sum_words(all, words);
    }
    if same_bytes(command, b"faults") {
        return match words.name() {
            Some(script) => match last_name(words) {
                Some(verdicts) => Some(ImageStudy::Faults {
                    names: Named { script, verdicts },
                }),
                None => None,
            },
            None => None,
        };
    }
    if same_bytes(command, b"script") {
        return match last_name(words) {
            Some(named) => Some(ImageStudy::Script { named }),
            None => None,
        };
    }
    None
}

/// A file's name, as the last word.
fn last_name<'a>(words: &mut CommandWords<'a>) -> Option<&'a Text>
    ensures { option_map (λ name. name.now) result ≡ last_name_of words.old }
{
    match words.name() {
        Some(name) => if words.is_end() { Some(name) } else { None },
        None => None,
    }
}

/// HORIZON, as the last word.
fn last_horizon(words: &mut CommandWords<'_>) -> Option<u32>
    ensures horizon { result ≡ last_horizon_of words.old }
    ensures most { IfSome result (λ n. n ≤ most_horizon) }
{
    match words.number(0, MOST_HORIZON) {
        Some(horizon) => if words.is_end() { Some(horizon) } else { None },
        None => None,
    }
}

/// Of `ranges`, behind `--all`, where that is said: `--inputs` and FILE.
fn inputs_words<'a>(all: bool, word: &Text, words: &mut CommandWords<'a>) -> Option<ImageStudy<'a>>
    ensures form { option_map study result ≡ inputs_form all word.now words.old }
    ensures sound { IfSome result (λ s. IsSoundStudy (study s)) }
{
    if !same_bytes(word.bytes(), b"--inputs") {
        return None;
    }
    match last_name(words) {
        Some(file) => Some(ImageStudy::Ranges {
            all,
            inputs: Some(file),
        }),
        None => None,
    }
}

/// The words of `ranges`.
fn ranges_words<'a>(words: &mut CommandWords<'a>) -> Option<ImageStudy<'a>>
    ensures form { option_map study result ≡ ranges_form words.old }
    ensures sound { IfSome result (λ s. IsSoundStudy (study s)) }
{
    match words.next() {
        Some(word) => if same_bytes(word.bytes(), b"--all") {
            match words.next() {
                Some(word) => inputs_words(true, word, words),
                None => Some(ImageStudy::Ranges {
                    all: true,
                    inputs: None,
                }),
            }
        } else {
            inputs_words(false, word, words)
        },
        None => Some(ImageStudy::Ranges {
            all: false,
            inputs: None,
        }),
    }
}

/// The words of `cover`: HORIZON and CLASS.
fn cover_words<'a>(words: &mut CommandWords<'_>) -> Option<ImageStudy<'a>>
    ensures form { option_map study result ≡ cover_form words.old }
    ensures sound { IfSome result (λ s. IsSoundStudy (study s)) }
{
    let Some(horizon) = words.number(0, MOST_HORIZON) else {
        return None;
    };
    let Some(class) = words.next() else {
        return None;
    };
    match cover_classes_named(class.bytes()) {
        Some(classes) => if words.is_end() {
            Some(ImageStudy::Alone(AloneStudy::Cover { horizon, classes }))
        } else {
            None
        },
        None => None,
    }
}

/// What is written of the sites: without more words the script of all, `--count` their number, and FROM COUNT a part: how many are before it, and the
/// most that it has.
fn chosen_words(words: &mut CommandWords<'_>) -> Option<Chosen>
    ensures { result ≡ chosen_of words.old }
{
    let Some(first) = words.next() else {
        return Some(Chosen::All);
    };
    let Some(second) = words.next() else {
        return if same_bytes(first.bytes(), b"--count") {
            Some(Chosen::Number)
        } else {
            None
        };
    };
    if !words.is_end() {
        return None;
    }
    match numeral(first.bytes()) {
        Some(skip) => match numeral(second.bytes()) {
            Some(left) => Some(Chosen::Part(Part { skip, left })),
            None => None,
        },
        None => None,
    }
}

/// CYCLES, where a file's name may be too.
fn cycles_in(rows: RowsWord<'_>) -> Option<u32>
    ensures cycles { result ≡ cycles_in_of (rows_of rows.entry) }
    ensures few { IfSome result (λ n. n ≤ most_cycles) }
{
    match rows {
        RowsWord::File(word) => match numeral(word.bytes()) {
            Some(cycles) => if 1 <= cycles && cycles <= MOST_CYCLES as u64 {
                Some(cycles as u32)
            } else {
                None
            },
            None => None,
        },
        RowsWord::Cycles(_) => None,
    }
}

/// CYCLES, CLASS, and which of the sites.
fn class_words<'a>(
    rows: RowsWord<'_>,
    class: &Text,
    words: &mut CommandWords<'_>,
) -> Option<ImageStudy<'a>>
    ensures form { option_map study result ≡ class_form (rows_of rows.entry) class.now words.old }
    ensures sound { IfSome result (λ s. IsSoundStudy (study s)) }
{
    match cycles_in(rows) {
        Some(cycles) => match classes_named(class.bytes()) {
            Some(classes) => match chosen_words(words) {
                Some(chosen) => Some(ImageStudy::Alone(AloneStudy::Sites {
                    cycles,
                    classes,
                    chosen,
                })),
                None => None,
            },
            None => None,
        },
        None => None,
    }
}

/// Of `sites`, what is behind ROWS, or behind CYCLES: CLASS, and which of the sites.
fn behind_words<'a>(rows: RowsWord<'a>, words: &mut CommandWords<'a>) -> Option<ImageStudy<'a>>
    requires { AreFew (rows_of rows) }
    ensures form { option_map study result ≡ behind_form (rows_of rows.entry) words.old }
    ensures sound { IfSome result (λ s. IsSoundStudy (study s)) }
{
    match words.next() {
        Some(word) => if same_bytes(word.bytes(), b"rest") {
            match cycles_in(rows) {
                Some(cycles) => match chosen_words(words) {
                    Some(chosen) => Some(ImageStudy::Alone(AloneStudy::RestSites {
                        cycles,
                        chosen,
                    })),
                    None => None,
                },
                None => None,
            }
        } else {
            match run_class_named(word.bytes()) {
                Some(class) => match chosen_words(words) {
                    Some(chosen) => Some(ImageStudy::RunSites {
                        rows,
                        class,
                        chosen,
                    }),
                    None => None,
                },
                None => class_words(rows, word, words),
            }
        },
        None => None,
    }
}

/// What is next behind M of `sum`.
#[derive(Clone, Copy)]
pub(crate) enum NextWord<'a> {
    /// No more words.
    NoMore,
    /// The names of a part's files, which were taken.
    Part,
    /// ROWS, as the last word.
    Rows(RowsWord<'a>),
}

/// All that is behind M of `sum`.
#[derive(Clone, Copy)]
pub(crate) struct BehindWords<'a> {
    /// How many parts.
    pub parts: u32,
    /// ROWS, where it is there.
    pub rows: Option<RowsWord<'a>>,
}

/// Takes what follows ROWS, or the name of a part's script: no more words, or the name of its verdicts.
fn next_after<'a>(rows: RowsWord<'a>, words: &mut CommandWords<'a>) -> Option<NextWord<'a>>
    requires { AreFew (rows_of rows) }
    ensures next { option_map (as_next words.new) result ≡ next_by (rows_of rows.entry, words.old) }
    ensures few { IfSome result IsFew }
{
    if words.is_end() {
        return Some(NextWord::Rows(rows));
    }
    match rows {
        RowsWord::File(_) => match words.name() {
            Some(_) => Some(NextWord::Part),
            None => None,
        },
        RowsWord::Cycles(_) => None,
    }
}

/// Takes what is next behind M: the names of a part's files, or ROWS as the last word.
fn next_behind<'a>(words: &mut CommandWords<'a>) -> Option<NextWord<'a>>
    ensures next { option_map (as_next words.new) result ≡ next_of words.old }
    ensures few { IfSome result IsFew }
{
    if words.is_end() {
        return Some(NextWord::NoMore);
    }
    match words.rows() {
        Some(rows) => next_after(rows, words),
        None => None,
    }
}

/// All that is behind M, which is so many parts and then this, unless it is one more part.
fn ended<'a>(parts: u32, next: NextWord<'a>) -> Option<BehindWords<'a>>
    requires { IsFew next }
    ensures behind { (words : List (List ℕ)) → option_map as_behind result ≡ ended_of parts (as_next words next.entry) }
    ensures parts { IfSome result (λ d. d.parts ≡ parts) }
    ensures few { IfSome result FewBehind }
{
    match next {
        NextWord::NoMore => Some(BehindWords { parts, rows: None }),
        NextWord::Part => None,
        NextWord::Rows(rows) => Some(BehindWords {
            parts,
            rows: Some(rows),
        }),
    }
}

/// Takes all that is behind M.
fn behind_image<'a>(words: &mut CommandWords<'a>) -> Option<BehindWords<'a>>
    ensures behind { option_map as_behind result ≡ behind_of most_parts words.old }
    ensures parts { IfSome result (λ d. d.parts ≤ most_parts) }
    ensures few { IfSome result FewBehind }
{
    'parts: for i in 0..MOST_PARTS {
        match next_behind(words) {
            Some(next) => match ended(i, next) {
                Some(behind) => return Some(behind),
                None => {}
            },
            None => return None,
        }
    }
    match next_behind(words) {
        Some(last) => ended(MOST_PARTS, last),
        None => None,
    }
}

/// The words of `sum`, of all these words those behind M: the names of parts, and ROWS where one word more is there.
fn sum_words<'a>(all: &'a Words, words: &mut CommandWords<'a>) -> Option<ImageStudy<'a>>
    requires { words.old ≡ drop 2 all.now }
    ensures form { option_map study result ≡ sum_form words.old }
    ensures sound { IfSome result (λ s. IsSoundStudy (study s)) }
{
    let Some(behind) = behind_image(words) else {
        return None;
    };
    if behind.parts == 0 {
        return None;
    }
    let parts = PartWords {
        words: all,
        at: 2,
        left: behind.parts,
    };
    Some(ImageStudy::Sum {
        parts,
        rows: behind.rows,
    })
}
