// The program: commands over a disk in memory, or over an image file.
#![tactic(auto)]

mod failure;
mod image;
mod run;

use console::verb::Verb;
use failure::{Failure, USAGE};
use run::Run;
use std::env;
use std::io::{Print, Read};
use std::process::ExitCode;

// The command text on standard input.
fn input(rt: &HostRuntime) -> Result<Vec<u8>, Failure> {
    let mut text = Vec::new(rt.alloc());
    rt.stdin().read_to_end(&mut text).map_err(Failure::Stream)?;
    Ok(text)
}

// What the words ask of the image.
fn over_image(rt: &HostRuntime, run: &mut Run, words: &[String]) -> Result<(), Failure> {
    let heap = rt.alloc();
    let Some((word, rest)) = words.split_first() else {
        return run.script(rt, input(rt)?.as_slice());
    };
    match (Verb::of(word.as_bytes()), rest) {
        (Some(Verb::Put), [name, file]) => {
            let line = format!(in heap; "put {name}")?;
            run.put(rt, line.as_str(), file.as_str())
        }
        (Some(Verb::Read), [name, file]) => {
            let line = format!(in heap; "read {name}")?;
            run.read(rt, line.as_str(), file.as_str())
        }
        // A put needs its file.
        (Some(Verb::Put), _) => Err(Failure::Usage),
        _ => run.command(rt, words.join(heap, " ")?.as_str()),
    }
}

fn start(rt: &HostRuntime) -> Result<(), Failure> {
    // Without the program's own name.
    let mut args = env::args(rt).map_err(Failure::Stream)?.skip(1);
    let Some(image) = args.next() else {
        return Run::in_memory(rt).script(rt, input(rt)?.as_slice());
    };
    if image.as_str() == "--help" {
        return rt.stdout().println(USAGE).map_err(Failure::Stream);
    }
    if image.as_str().starts_with("--") {
        return Err(Failure::Usage);
    }
    let words = args.collect::<Vec<String>>(rt.alloc())?;
    let mut run = Run::over_image(rt, image)?;
    over_image(rt, &mut run, words.as_slice())
}

fn main(rt: HostRuntime) -> ExitCode {
    match start(&rt) {
        Ok(()) => ExitCode::SUCCESS,
        Err(failure) => {
            // What can't be said is let go.
            let _ = rt.eprintln(failure);
            ExitCode::FAILURE
        }
    }
}
