//! `handover`: Kexec Handover with Live Update sessions, as a machine in software.
#![tactic(auto)]

mod agent_runner;
mod block_runner;
mod images;
mod reading;
mod rebooting;
mod resuming;
mod run;
mod scripts;
mod status;
#[cfg(test)]
mod tests;

use crate::run::run;
use crate::status::Status;
use ho_io::SystemHost;
use std::env;
use std::io::ErrorKind;
use std::process::ExitCode;

fn main(rt: HostRuntime) -> ExitCode {
    let alloc = rt.alloc();
    let mut host = SystemHost::new(&rt);
    let status = match env::args(&rt) {
        Ok(args) => match args.skip(1).collect::<Vec<String>>(alloc) {
            Ok(words) => run(alloc, words.as_slice(), &mut host),
            Err(_) => Status::Memory,
        },
        Err(error) if error.kind() == ErrorKind::OutOfMemory => Status::Memory,
        // Words that aren't text are those of no run.
        Err(_) => run(alloc, &[], &mut host),
    };
    let code: u8 = match status {
        Status::Done => 0,
        Status::Script => 1,
        Status::Usage => 2,
        Status::Memory => {
            let _ = eprintln!(rt; "handover: want of memory");
            3
        }
        Status::ReadFault => {
            let _ = eprintln!(rt; "handover: read fault");
            4
        }
        Status::WriteFault => {
            let _ = eprintln!(rt; "handover: write fault");
            5
        }
        Status::Image => 6,
    };
    ExitCode::from(code)
}
