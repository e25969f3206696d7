//! Commands, with their words.

use crate::part_words::{Named, PartWords};
use fault_cover::CoverClasses;
use fault_sites::{Chosen, Classes, RunClass};
use pictures::Period;
use vcp_base::Text;
use vcp_inputs::{Code, RowsWord};

/// A command, with its own words. A name of a file isn't empty and doesn't begin with `-`.
#[derive(Clone, Copy)]
pub enum StudyCommand<'a> {
    /// `waves FILE`, with `--cycle-time TIME` behind it or without: the timing diagram of a run that was printed.
    Waves {
        /// The name of the file.
        file: &'a Text,
        /// How long a cycle takes, TIME.
        period: Option<Period>,
    },
    /// What is made of an instruction list.
    List {
        /// The name of the instruction list, P.
        source: &'a Text,
        /// What is made of it.
        study: ListStudy,
    },
    /// A study of an image.
    On {
        /// The name of the image, M.
        image: &'a Text,
        /// What is done with it.
        study: ImageStudy<'a>,
    },
}

/// What is made of an instruction list.
#[derive(Clone, Copy)]
pub enum ListStudy {
    /// `image P CODE`: its image, with the numbers of the code, CODE.
    Image(Code),
    /// `text P`: a program in Structured Text.
    Text,
}

/// How a graph is drawn.
#[derive(Clone, Copy)]
pub enum Drawing {
    /// As a picture: `graph`.
    Picture,
    /// As a text for Graphviz: `dot`.
    Dot,
}

/// What is done with an image for which no other file is read.
#[derive(Clone, Copy)]
pub enum AloneStudy {
    /// `graph M HORIZON` and `dot M HORIZON`: its graph.
    Drawn {
        /// The greatest number of cycle borders, at most 1000.
        horizon: u32,
        /// How it is drawn.
        drawing: Drawing,
    },
    /// `cover M HORIZON CLASS`: what becomes of the faults of a class in every run.
    Cover {
        /// The greatest number of cycle borders, at most 1000.
        horizon: u32,
        /// The class, or all, CLASS.
        classes: CoverClasses,
    },
    /// `sites M CYCLES CLASS`, with `FROM COUNT` or `--count` behind it or without: the script of the single faults of a class.
    Sites {
        /// How many cycles the faults are in, CYCLES, 1 to 1,000,000.
        cycles: u32,
        /// The class, or all, CLASS.
        classes: Classes,
        /// What is written.
        chosen: Chosen,
    },
    /// `sites M CYCLES rest`, in the same ways, where a part counts groups: the script of the groups in which a word changes between two of its readings.
    RestSites {
        /// How many cycles the faults are in, CYCLES, 1 to 1,000,000.
        cycles: u32,
        /// What is written.
        chosen: Chosen,
    },
}

/// What is done with an image, by the words behind its name.
#[derive(Clone, Copy)]
pub enum ImageStudy<'a> {
    /// `graph`, `dot`, `cover`, and `sites M CYCLES`: no other file is read.
    Alone(AloneStudy),
    /// `ranges M`, with `--all` and then `--inputs FILE` behind it or without: which operations of its graph may stop.
    Ranges {
        /// Whether the range of each operation is reported too.
        all: bool,
        /// The name of the table of the inputs' ranges.
        inputs: Option<&'a Text>,
    },
    /// `sites M ROWS CLASS`, in the ways of `Sites`: the script of the faults of a class that the words of a run decide.
    RunSites {
        /// The recorded inputs, ROWS.
        rows: RowsWord<'a>,
        /// The class, CLASS.
        class: RunClass,
        /// What is written.
        chosen: Chosen,
    },
    /// `sum M SCRIPT VERDICTS ..`, with ROWS behind it or without: tables of the verdicts that were printed on scripts.
    Sum {
        /// The names of the scripts, and of what was printed on each.
        parts: PartWords<'a>,
        /// ROWS, by runs over which the verdicts that are `same` are distinguished.
        rows: Option<RowsWord<'a>>,
    },
    /// `faults M SCRIPT VERDICTS`: the picture of its graph by the same.
    Faults {
        /// The names of the script, and of what was printed on it.
        names: Named<'a>,
    },
    /// `script M NAMED`: the script of faults that are named by variables and by places in the source.
    Script {
        /// The name of the file with the lines that name faults.
        named: &'a Text,
    },
}
