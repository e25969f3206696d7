//! The program `vcp`: reads the words, and runs the top call over the runtime's files and streams.
#![tactic(auto)]

use coded_unit::CpuUnit;
use std::process::ExitCode;
use vcp_core::vcp;
use vcp_outside::{HostFiles, HostSink, given_words, status_without_words};

fn main(rt: HostRuntime) -> ExitCode {
    let words = match given_words(&rt) {
        Ok(words) => words,
        Err(e) => return ExitCode::from(status_without_words(e.kind())),
    };
    let mut files = HostFiles::new(&rt);
    let mut unit = CpuUnit::new();
    let mut out = HostSink::new(rt.stdout());
    let mut err = HostSink::new(rt.stderr());
    ExitCode::from(vcp(
        rt.alloc(),
        &words,
        &mut files,
        &mut unit,
        &mut out,
        &mut err,
    ))
}
