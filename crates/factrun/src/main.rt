#![tactic(auto)]

use batch::output::run_listing;
use listing_reader::read::MOST_BYTES;
use std::env;
use std::io::Read;
use std::process::ExitCode;

const HELP: &str =
    "factrun: reads a listing on standard input, runs it, and prints its commit order, jobs and cells";

const VERSION: &str = "factrun 1.0";

// Runs the listing on standard input and prints what came of it. A refused listing ends the program with status 1.
fn run(rt: &HostRuntime) -> anyhow::Result<ExitCode> {
    let heap = rt.alloc();
    let mut listing = Vec::new(heap);
    // One byte more than a listing may have is enough to see that it is too long.
    rt.stdin()
        .take(MOST_BYTES as u64 + 1)
        .read_to_end(&mut listing)?;
    let (text, status) = match run_listing(heap, listing.as_slice())? {
        Ok(report) => (report, ExitCode::SUCCESS),
        Err(fault) => (fault, ExitCode::FAILURE),
    };
    rt.print(text.as_str())?;
    Ok(status)
}

// Prints a line and ends well.
fn tell(rt: &HostRuntime, line: &str) -> anyhow::Result<ExitCode> {
    rt.println(line)?;
    Ok(ExitCode::SUCCESS)
}

fn main(rt: HostRuntime) -> anyhow::Result<ExitCode> {
    let mut args = env::args(&rt)?;
    let _program = args.next();
    match args.next() {
        None => run(&rt),
        Some(word) if word.as_str() == "--help" => tell(&rt, HELP),
        Some(word) if word.as_str() == "--version" => tell(&rt, VERSION),
        Some(word) => {
            eprintln!(rt; "factrun: {word} is unknown; factrun --help says more")?;
            Ok(ExitCode::FAILURE)
        }
    }
}
