//! Runs programs of Æminium: reads a source from standard input and prints what it prints and how it ended.
#![tactic(auto)]

mod answer;
mod built;
#[cfg(test)]
mod calls_tests;
#[cfg(test)]
mod layout_tests;
#[cfg(test)]
mod machine_tests;
mod modes;
#[cfg(test)]
mod tests;
mod texts;
mod top;
mod words;

use ae_text::{NoGate, StdSink, StdSource};
use std::process::ExitCode;
use std::{env, io};
use top::aeminium;

// The status where memory is refused before anything is read.
const NO_MEMORY: u8 = 6;

fn main(rt: HostRuntime) -> ExitCode {
    let words = match env::args(&rt) {
        Ok(args) => args.skip(1).collect::<Vec<String>>(rt.alloc()),
        Err(error) if error.kind() == io::ErrorKind::OutOfMemory => {
            return ExitCode::from(NO_MEMORY);
        }
        // Words that are not UTF-8 are answered as no words are.
        Err(_) => Ok(Vec::new(rt.alloc())),
    };
    let Ok(words) = words else {
        return ExitCode::from(NO_MEMORY);
    };
    let mut source = StdSource::new(rt.stdin());
    let mut sink = StdSink::new(rt.stdout());
    let answer = aeminium(
        &rt,
        rt.alloc(),
        words.as_slice(),
        &mut source,
        &mut sink,
        &NoGate,
    );
    ExitCode::from(answer.status)
}
