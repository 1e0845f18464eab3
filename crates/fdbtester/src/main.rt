//! The program: the words of the command line, standard input and standard output go to `program`, and its status
//! is the program's.
#![tactic(auto)]

use fdb_program::{ArgWords, program};
use outside::{ReadSource, RestingGate, WriteSink, write_all};
use std::alloc::AllocError;
use std::env::Env;
use std::process::ExitCode;
use std::{env, io};

/// The status for want of memory.
const OUT_OF_MEMORY: u8 = 6;

fn main(rt: HostRuntime) -> ExitCode {
    let mut err = WriteSink::new(rt.stderr());
    let status = match words(&rt) {
        Err(_) => {
            let _told = write_all(&mut err, b"fdbtester: out of memory\n");
            OUT_OF_MEMORY
        }
        Ok(args) => {
            let mut source = ReadSource::new(rt.stdin());
            let mut out = WriteSink::new(rt.stdout());
            program(
                &rt,
                rt.alloc(),
                &args,
                &mut source,
                &mut out,
                &mut err,
                &RestingGate { clock: &rt },
            )
            .status
        }
    };
    ExitCode::from(status)
}

// The words after the program's name. Where one of them is not UTF-8 there are none to judge, and no words are a usage fault.
fn words(rt: &(impl Env + AllocGlobal)) -> Result<ArgWords, AllocError> {
    let mut args = ArgWords::new(rt.alloc());
    let all = match env::args(rt) {
        Ok(all) => all,
        Err(error) if error.kind() == io::ErrorKind::OutOfMemory => return Err(AllocError),
        Err(_) => return Ok(args),
    };
    for word in all.skip(1) {
        args.push(word.as_str())?;
    }
    Ok(args)
}
