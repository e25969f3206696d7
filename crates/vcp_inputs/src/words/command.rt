//! Commands.

use vcp_base::Text;

/// Where the rows of a run come from.
#[derive(Clone, Copy)]
pub enum RowsWord<'a> {
    /// The file under this name.
    File(&'a Text),
    /// So many cycles without inputs: `--cycles N`, at most 1,000,000.
    Cycles(u32),
}

/// The code of a run: what the signatures of its operations and the stamps of its cycles are made of.
#[derive(Clone, Copy)]
pub struct Code {
    /// The seed of the signatures: `--seed N`, below 2^30.
    pub seed: u32,
    /// The step of the stamps: `--step N`, 1 to 1000.
    pub step: u16,
}

/// The code where the words give none, and the part of it that they don't give.
pub const DEFAULT_CODE: Code = Code {
    seed: 305419896,
    step: 1,
};

/// What is written of a program that is checked.
#[derive(Clone, Copy)]
pub enum SourceText {
    /// `check P`: its Size.
    Size,
    /// `compile P CODE`: the image of its operations, with the numbers of the code.
    Image(Code),
}

/// How a program is run on rows.
#[derive(Clone, Copy)]
pub enum ProgramRun {
    /// `plain P ROWS`: the source's own run.
    Plain,
    /// `run P ROWS CODE`: the run of the program's operations, on a unit.
    Run(Code),
    /// `il P ROWS CODE`: the run of an instruction list's operations, on a unit.
    Il(Code),
}

/// What is printed of an image.
#[derive(Clone, Copy)]
pub enum ImageText {
    /// `list M`: its operations.
    List,
    /// `widen M`: the image of the same operations and code in words of 64 bits.
    Widen,
    /// `audit M HORIZON`: which of its operations are reached and blind.
    Audit {
        /// The greatest number of cycle borders, at most 1000.
        horizon: u32,
    },
}

/// How an image is run on rows alone.
#[derive(Clone, Copy)]
pub enum SingleRun {
    /// `exec M ROWS`: the run of its operations, on a unit.
    Exec,
    /// `trace M ROWS CYCLE`: the words of one cycle of that run.
    Trace {
        /// The cycle, counted from 0, below 1,000,000.
        cycle: u32,
    },
    /// `pair M ROWS SEED`: the run of its operations on a pair of channels.
    Pair {
        /// The seed of the second channel's signatures, SEED, below 2^30.
        seed: u32,
    },
}

/// How an image is run on rows.
#[derive(Clone, Copy)]
pub enum ImageRun<'a> {
    /// Once.
    Single(SingleRun),
    /// `inject M ROWS F`: the verdict of each fault of a script; or `pairs M ROWS SEED F`: what a pair of channels makes of each group of it.
    Faults {
        /// The seed of the second channel's signatures, SEED, below 2^30, where there is a pair.
        second: Option<u32>,
        /// The name of the script of faults, F.
        script: &'a Text,
    },
}

/// A command, with its own words: those that read the same files are one variant. A name of a file isn't empty and doesn't begin with `-`.
#[derive(Clone, Copy)]
pub enum Command<'a> {
    /// `format P`: the program's canonical text.
    Format {
        /// The name of the program's source, P.
        source: &'a Text,
    },
    /// What is written of a program that is checked.
    Source {
        /// The name of the program's source, P.
        source: &'a Text,
        /// What is written.
        text: SourceText,
    },
    /// A program's run on rows.
    ProgramRows {
        /// The name of the program's source or instruction list, P.
        source: &'a Text,
        /// The recorded inputs, ROWS.
        rows: RowsWord<'a>,
        /// How it is run.
        run: ProgramRun,
    },
    /// The text of an image.
    Image {
        /// The name of the image, M.
        image: &'a Text,
        /// Which text.
        text: ImageText,
    },
    /// An image's run on rows.
    ImageRows {
        /// The name of the image, M.
        image: &'a Text,
        /// The recorded inputs, ROWS.
        rows: RowsWord<'a>,
        /// How it is run.
        run: ImageRun<'a>,
    },
    /// `wire F`: the run of a wire's script: values are sent on a unit, and telegrams taken.
    Wire {
        /// The name of the script of the wire, F.
        script: &'a Text,
    },
    /// `demo N`: the run of the made program of a number, on a unit.
    Demo {
        /// The number, N.
        number: u32,
    },
}
