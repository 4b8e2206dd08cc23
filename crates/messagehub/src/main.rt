//! The program `messagehub`: it runs step lines through the core and prints what each is answered,
//! runs a script on threads and prints the logs of its agents, or checks the logs of a run.
#![tactic(auto)]

use hub_engine::{CountedReader, CountedWriter, Ending, write_out_of_memory};
use hub_modes::run_with_arguments;
use std::alloc::AllocError;
use std::io::ErrorKind;
use std::process::ExitCode;
use std::{env, io};

fn main(rt: HostRuntime) -> ExitCode {
    let mut reader = CountedReader::new(rt.stdin());
    let mut writer = CountedWriter::new(io::writer(&rt));
    let answer = match words_after_name(&rt) {
        Ok(words) => run_with_arguments(rt.alloc(), &rt, &words, &mut reader, &mut writer),
        Err(AllocError) => write_out_of_memory(&mut writer),
    };
    let Ending { status, message } = Ending::of(answer);
    if let Some(message) = message {
        let _ = rt.eprintln(message);
    }
    status.code()
}

/// The arguments after the program's name. Arguments that are no text count as none.
fn words_after_name(rt: &HostRuntime) -> Result<Vec<String>, AllocError> {
    match env::args(rt) {
        Ok(args) => args.skip(1).collect::<Vec<String>>(rt.alloc()),
        Err(error) if error.kind() == ErrorKind::OutOfMemory => Err(AllocError),
        Err(_) => Ok(Vec::new(rt.alloc())),
    }
}
