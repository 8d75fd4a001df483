//! The simulator's program: it passes its arguments, the real files and the standard streams to the top call.
#![tactic(auto)]

use cf_io::{DirFiles, StdSink, StdSource};
use cf_report::Gathered;
use cfpp_cli::cfpp;
use std::io::{self, ErrorKind};
use std::process::ExitCode;
use std::{env, rt};

/// The status if memory for the arguments was refused.
const NO_MEMORY: u8 = 130;

/// The status if the arguments cannot be read for another reason: for example, one is not UTF-8.
const NO_WORDS: u8 = 133;

/// The arguments of the command line, without the program's own name.
fn arguments_of<R: rt::Env + AllocGlobal>(rt: &R) -> io::Result<Vec<String>> {
    let mut args = env::args(rt)?;
    let _name = args.next();
    Ok(args.collect(rt.alloc())?)
}

fn main(rt: HostRuntime) -> ExitCode {
    let arguments = match arguments_of(&rt) {
        Ok(arguments) => arguments,
        Err(error) if error.kind() == ErrorKind::OutOfMemory => return ExitCode::from(NO_MEMORY),
        Err(_) => return ExitCode::from(NO_WORDS),
    };
    let mut files = DirFiles::new(&rt);
    let mut input = StdSource::new(rt.stdin());
    let mut output = StdSink::new(rt.stdout());
    let mut report = Gathered::new(StdSink::new(rt.stderr()));
    let status = cfpp(
        rt.alloc(),
        arguments.as_slice(),
        &mut files,
        &mut input,
        &mut output,
        &mut report,
    );
    ExitCode::from(status.code())
}
