// The command line of Gathnomir.
#![tactic(auto)]

mod demo;
mod failure;
mod listing;
mod record;
mod shown;
mod value;

use failure::Failure;
use source::Packed;
use std::io::{BufWriter, Write};
use std::process::ExitCode;
use std::{env, fs};

const USAGE: &str = "usage: gathnomir events SOURCE EVENTS
           print a record of the packed events in EVENTS over the source file SOURCE
       gathnomir pack LISTING [EVENTS]
           pack the events that LISTING names, one to a line, into the file EVENTS,
           or onto standard output
       gathnomir tree
           print the tree of one condition, placed by hand, as an outline and in one line
       gathnomir help
           print this text";

fn main(rt: HostRuntime) -> ExitCode {
    match run(&rt) {
        Ok(()) => ExitCode::SUCCESS,
        Err(failure) => {
            let _ = match failure {
                Failure::Usage => eprintln!(rt; "{USAGE}"),
                _ => eprintln!(rt; "gathnomir: {failure}"),
            };
            ExitCode::FAILURE
        }
    }
}

fn run(rt: &HostRuntime) -> Result<(), Failure> {
    let mut args = env::args(rt)?.skip(1);
    let Some(command) = args.next() else {
        return Err(Failure::Usage);
    };
    let words: Vec<String> = args.collect(rt.alloc())?;
    match (command.as_str(), words.as_slice()) {
        ("events", [source, events]) => print_events(rt, source.as_str(), events.as_str()),
        ("pack", [listing]) => {
            let bytes = pack(rt, listing.as_str())?;
            Ok(rt.stdout().write_all(bytes.as_slice())?)
        }
        ("pack", [listing, events]) => {
            let bytes = pack(rt, listing.as_str())?;
            write(rt, events.as_str(), bytes.as_slice())
        }
        ("tree", []) => demo::print(rt),
        ("help", []) => Ok(println!(rt; "{USAGE}")?),
        _ => Err(Failure::Usage),
    }
}

fn read(rt: &HostRuntime, path: &str) -> Result<Vec<u8>, Failure> {
    fs::read(rt, path).map_err(|error| Failure::file(rt.alloc(), "read", path, error))
}

fn write(rt: &HostRuntime, path: &str, bytes: &[u8]) -> Result<(), Failure> {
    fs::write(rt, path, bytes).map_err(|error| Failure::file(rt.alloc(), "write", path, error))
}

fn print_events(rt: &HostRuntime, source: &str, events: &str) -> Result<(), Failure> {
    let source = read(rt, source)?;
    let events = read(rt, events)?;
    let out = BufWriter::new(rt.alloc(), rt.stdout())?;
    record::print(rt.alloc(), out, source.as_slice(), events.as_slice())?;
    Ok(())
}

fn pack(rt: &HostRuntime, listing: &str) -> Result<Vec<u8>, Failure> {
    let text = read(rt, listing)?;
    listing::pack(rt.alloc(), text.as_slice())
}
