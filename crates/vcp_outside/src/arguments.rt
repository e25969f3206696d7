//! The words of a program's arguments, and the status where the runtime gives none.

ghost use Rattle.std.specs.Prelude.{◌≡◌, ◌≢◌, IfOk, map, drop, string_bytes};
ghost use Rattle.std.specs.declared.io.ErrorKind.TheVariants.{OutOfMemory};

use std::alloc::Global;
use std::{env, io};
use vcp_base::{Memory, Words};

/// Status where memory is wanted for the words.
const NO_MEMORY: u8 = 7;

/// Status where the runtime refuses the arguments for another cause. No top call answers it.
const NO_ARGUMENTS: u8 = 8;

/// The words of the arguments, of which the first is the program's name and no word. Without words memory was
/// lacking.
pub fn words_of(alloc: Global, arguments: &[String]) -> Result<Words, Memory>
    ensures { IfOk result (λ words. words ≡ map string_bytes (drop 1 arguments.now)) }
{
    let mut words = Words::new(alloc);
    if let Some((_, rest)) = arguments.split_first() {
        'each: for argument in rest {
            words.push(argument.as_bytes())?;
        }
    }
    Ok(words)
}

/// The words that the runtime gives, which promises nothing of its arguments.
pub fn given_words(rt: &(impl env::Env + AllocGlobal)) -> io::Result<Words> {
    let arguments: Vec<String> = env::args(rt)?.collect(rt.alloc())?;
    match words_of(rt.alloc(), &arguments) {
        Ok(words) => Ok(words),
        Err(Memory) => Err(io::Error::from(io::ErrorKind::OutOfMemory)),
    }
}

/// The status where there are no words, for an error of this kind. It is 7 for want of memory, and 8 for
/// every other error of the runtime.
pub fn status_without_words(kind: io::ErrorKind) -> u8
    ensures memory { kind ≡ OutOfMemory → result ≡ 7 }
    ensures other { kind ≢ OutOfMemory → result ≡ 8 }
{
    match kind {
        io::ErrorKind::OutOfMemory => NO_MEMORY,
        _ => NO_ARGUMENTS,
    }
}
