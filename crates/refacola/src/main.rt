//! The program: the words after its name, run over the files of the system and the standard output.
#![tactic(auto)]

use rf_cli::{Status, run};
use rf_text::{Bytes, List, Memory};
use rf_world::{RealSink, RealWorld};
use std::alloc::Global;
use std::env;
use std::io::ErrorKind;
use std::process::ExitCode;
use std::rt::Env;

fn main(rt: HostRuntime) -> ExitCode {
    let status = match words(rt.alloc(), &rt) {
        Ok(words) => {
            let mut world = RealWorld::new(&rt);
            let mut out = RealSink::new(&rt);
            run(rt.alloc(), words.as_slice(), &mut world, &mut out)
        }
        Err(Memory) => Status::Memory,
    };
    ExitCode::from(status.code())
}

/// The words after the program's name. Where one of them isn't UTF-8 there are none, which is no command.
fn words<R: Env + AllocGlobal>(alloc: Global, rt: &R) -> Result<List<Bytes>, Memory> {
    let mut words = List::new(alloc);
    let all = match env::args(rt) {
        Ok(all) => all,
        Err(error) if error.kind() == ErrorKind::OutOfMemory => return Err(Memory),
        Err(_) => return Ok(words),
    };
    for word in all.skip(1) {
        words.push(Bytes::from_slice(alloc, word.as_bytes())?)?;
    }
    Ok(words)
}
