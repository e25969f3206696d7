//! From words to a command; and the usage line.

ghost use Rattle.std.specs.Prelude.{◌≡◌, ◌∷◌, List, ℕ, IfSome};
ghost use Rattle.std.specs.Option.{option_and_then, option_map};
ghost use Rattle.vcp_inputs.specs.Forms.{form, form_of, image_run, rows_of, usage_text, IsSound, Rows};
ghost use Rattle.vcp_inputs.specs.FormsByFiles.{Done, form_behind_file, form_behind_rows, form_behind_seed, form_by_files, form_of_image, form_of_image_run};

use crate::words::command::{
    Command, ImageRun, ImageText, ProgramRun, RowsWord, SingleRun, SourceText,
};
use crate::words::words_left::CommandWords;
use vcp_base::{MOST_CYCLES, MOST_HORIZON, SEEDS, Text, Words, same_bytes};

/// The line that words get which are none of the forms. It names all commands.
pub fn usage() -> &'static [u8]
    ensures { result.now ≡ usage_text }
{
    b"usage: vcp check P, format P, plain P ROWS, run P ROWS CODE, compile P CODE, list M, exec M ROWS, trace M ROWS CYCLE, inject M ROWS F, audit M HORIZON, \
      widen M, il P ROWS CODE, pair M ROWS SEED, pairs M ROWS SEED F, wire F or demo N\n"
}

/// The command that the words say; None where they are none of the forms. A command's number of cycles is at
/// most 1,000,000, its seed, of CODE, of `pair` or of `pairs`, is below 2^30, its step is 1 to 1000, its
/// cycle is below 1,000,000, and its horizon is at most 1000.
pub fn command_of(words: &Words) -> Option<Command<'_>>
    ensures form { option_map form result ≡ form_of words.now }
    ensures sound { IfSome result (λ command. IsSound (form command)) }
{
    let mut left = CommandWords::new(words);
    let Some(name) = left.next() else {
        return None;
    };
    let Some(command) = named_command(name.bytes(), &mut left) else {
        return None;
    };
    if left.is_end() { Some(command) } else { None }
}

/// The command that its name and its own words say.
fn named_command<'a>(command: &[u8], words: &mut CommandWords<'a>) -> Option<Command<'a>>
    ensures { (done : Done) → option_and_then (λ c. done (form c) words.new) result ≡ form_by_files done (command.now ∷ words.old) }
{
    if same_bytes(command, b"demo") {
        let Some(number) = words.number(0, u32::MAX) else {
            return None;
        };
        return Some(Command::Demo { number });
    }
    let Some(name) = words.name() else {
        return None;
    };
    file_command(command, name, words)
}

/// The command that its name, a file's name behind it and the words behind that say.
fn file_command<'a>(
    command: &[u8],
    name: &'a Text,
    words: &mut CommandWords<'a>,
) -> Option<Command<'a>>
    ensures { (done : Done) → option_and_then (λ c. done (form c) words.new) result ≡ form_behind_file done command.now name.now words.old }
{
    if same_bytes(command, b"check") {
        let text = SourceText::Size;
        return Some(Command::Source { source: name, text });
    }
    if same_bytes(command, b"format") {
        return Some(Command::Format { source: name });
    }
    if same_bytes(command, b"compile") {
        let Some(code) = words.code() else {
            return None;
        };
        let text = SourceText::Image(code);
        return Some(Command::Source { source: name, text });
    }
    if same_bytes(command, b"wire") {
        return Some(Command::Wire { script: name });
    }
    image_command(command, name, words)
}

/// The same of a command that prints something of an image, or has ROWS.
fn image_command<'a>(
    command: &[u8],
    image: &'a Text,
    words: &mut CommandWords<'a>,
) -> Option<Command<'a>>
    ensures { (done : Done) → option_and_then (λ c. done (form c) words.new) result ≡ form_of_image done command.now image.now words.old }
{
    if same_bytes(command, b"list") {
        let text = ImageText::List;
        return Some(Command::Image { image, text });
    }
    if same_bytes(command, b"widen") {
        let text = ImageText::Widen;
        return Some(Command::Image { image, text });
    }
    if same_bytes(command, b"audit") {
        let Some(horizon) = words.number(0, MOST_HORIZON) else {
            return None;
        };
        let text = ImageText::Audit { horizon };
        return Some(Command::Image { image, text });
    }
    let Some(rows) = words.rows() else {
        return None;
    };
    rows_command(command, image, rows, words)
}

/// The command that its name, a file's name, ROWS and the words behind these say.
fn rows_command<'a>(
    command: &[u8],
    name: &'a Text,
    rows: RowsWord<'a>,
    words: &mut CommandWords<'a>,
) -> Option<Command<'a>>
    ensures { (done : Done) → option_and_then (λ c. done (form c) words.new) result ≡ form_behind_rows done command.now name.now (rows_of rows.entry) words.old }
{
    if same_bytes(command, b"plain") {
        let run = ProgramRun::Plain;
        return Some(Command::ProgramRows {
            source: name,
            rows,
            run,
        });
    }
    if same_bytes(command, b"run") {
        let Some(code) = words.code() else {
            return None;
        };
        let run = ProgramRun::Run(code);
        return Some(Command::ProgramRows {
            source: name,
            rows,
            run,
        });
    }
    if same_bytes(command, b"il") {
        let Some(code) = words.code() else {
            return None;
        };
        let run = ProgramRun::Il(code);
        return Some(Command::ProgramRows {
            source: name,
            rows,
            run,
        });
    }
    let Some(run) = image_run_of(command, words) else {
        return None;
    };
    Some(Command::ImageRows {
        image: name,
        rows,
        run,
    })
}

/// How an image is run on rows, by the command's name and the words behind ROWS.
fn image_run_of<'a>(command: &[u8], words: &mut CommandWords<'a>) -> Option<ImageRun<'a>>
    ensures { (done : Done) (m : List ℕ) (rows : Rows) →
        option_and_then (λ run. done (image_run m rows run) words.new) result ≡ form_of_image_run done command.now m rows words.old }
{
    if same_bytes(command, b"exec") {
        return Some(ImageRun::Single(SingleRun::Exec));
    }
    if same_bytes(command, b"trace") {
        let Some(cycle) = words.number(0, MOST_CYCLES - 1) else {
            return None;
        };
        return Some(ImageRun::Single(SingleRun::Trace { cycle }));
    }
    if same_bytes(command, b"inject") {
        let Some(script) = words.name() else {
            return None;
        };
        let second = None;
        return Some(ImageRun::Faults { second, script });
    }
    let Some(seed) = words.number(0, SEEDS - 1) else {
        return None;
    };
    pair_run_of(command, seed, words)
}

/// How an image is run on two channels, by the command's name, SEED and the words behind it.
fn pair_run_of<'a>(command: &[u8], seed: u32, words: &mut CommandWords<'a>) -> Option<ImageRun<'a>>
    ensures { (done : Done) (m : List ℕ) (rows : Rows) →
        option_and_then (λ run. done (image_run m rows run) words.new) result ≡ form_behind_seed done command.now m rows seed words.old }
{
    if same_bytes(command, b"pair") {
        return Some(ImageRun::Single(SingleRun::Pair { seed }));
    }
    if same_bytes(command, b"pairs") {
        let Some(script) = words.name() else {
            return None;
        };
        let second = Some(seed);
        return Some(ImageRun::Faults { second, script });
    }
    None
}
