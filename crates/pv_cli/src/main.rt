//! `pvsim`: the program of `pv_cli_line`, over the files and streams of the operating system.
//!
//! `main` passes the words, the files and the standard streams to `run`. The output is buffered, so that many small
//! writes are one system call, except during a search, which writes its findings at once. Without arguments, and with
//! a terminal as standard input, the program first says that it reads a bundle. If the standard error is a terminal, a
//! search shows its progress there. The contract of `run`, over any files and streams, states everything that is proved
//! of the program.
#![tactic(auto)]

use pv_cli_host::cli_commands::{Failure, HostSystem, Target};
use pv_cli_host::{HostFiles, Input, Output, Screen, ScreenWriter, SearchOutput, Shown};
use pv_cli_line::{Fault, LineFault, report, run};
use std::io::IsTerminal;
use std::process::ExitCode;
use std::{env, io};

// The commit that this program is built from. The build writes it here; a program that is built without proofs has none.
const BUILD: &str = "";

// Returns the words of the command line. The first word is the name of the program.
fn words_of(rt: &HostRuntime) -> Result<Vec<String>, Fault> {
    let words = match env::args(rt) {
        Ok(words) => words,
        Err(error) if error.kind() == io::ErrorKind::OutOfMemory => {
            return Err(Fault::Line(LineFault::Memory));
        }
        Err(_) => return Err(Fault::Words),
    };
    match words.collect(rt.alloc()) {
        Ok(words) => Ok(words),
        Err(_) => Err(Fault::Line(LineFault::Memory)),
    }
}

// Says that a bundle is read from the terminal, if there are no arguments and the standard input is a terminal.
fn greet(rt: &HostRuntime, words: &[String]) {
    if words.len() <= 1 && rt.stdin().is_terminal() {
        let _written = eprint!(rt;
            "pvsim: reading a bundle from the terminal; see 'pvsim --help' for the commands\n"
        );
    }
}

// Writes the commit that the program is built from below the version, and returns whether that was possible.
fn name_build(rt: &HostRuntime, words: &[String]) -> bool {
    let [_, word] = words else {
        return true;
    };
    let is_asked = word.as_str() == "--version" || word.as_str() == "-V";
    !is_asked || BUILD.is_empty() || print!(rt; "{BUILD}\n").is_ok()
}

fn main(rt: HostRuntime) -> ExitCode {
    let screen = Screen::new(&rt);
    let waiting = ScreenWriter::new(&screen, io::writer(&rt));
    let direct = ScreenWriter::new(&screen, io::writer(&rt));
    let mut system = HostSystem {
        files: HostFiles::new(&rt),
        input: Input::new(rt.reader()),
        output: SearchOutput::new(rt.alloc(), &screen, waiting, direct),
        errors: Output::new(rt.stderr()),
    };
    let status = match words_of(&rt) {
        Ok(words) => {
            greet(&rt, words.as_slice());
            let mut progress = Shown::new(&screen);
            match run(rt.alloc(), words.as_slice(), &mut system, &mut progress) {
                0 if !name_build(&rt, words.as_slice()) => {
                    report(&Fault::Command(Failure::Write(Target::Output)), &mut system)
                }
                status => status,
            }
        }
        Err(fault) => report(&fault, &mut system),
    };
    ExitCode::from(status)
}
