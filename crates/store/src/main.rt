//! The store: opens the register's file, reads lines from standard input, and answers each.

#![tactic(auto)]

use anyhow::anyhow;
use std::alloc::AllocError;
use std::env;
use std::fmt::Write as _;
use std::fs::File;
use std::io::{BufRead, BufReader, Write};
use table::Rows;

mod answer;
mod register;

const HELP: &str = "store [--file PATH] [--help]

Opens the register in PATH (by default the file `register` in this folder), prints `up` and how often it
came up, and then answers each line of standard input by one line:

  O read K      the row of key K (0 to 4095), for office O (0 to 63): `row` and its eight numbers, or `refused 9`

Any other line is answered `refused 1`; an empty line and one that begins with # are skipped. It ends at the
end of the input.
";

/// What the command line asks for.
#[derive(Drop)]
enum Command {
    Help,
    Serve(String),
}

fn command_line(rt: &HostRuntime) -> anyhow::Result<Command> {
    let mut path = String::from_str(rt.alloc(), "register")?;
    let mut words = env::args(rt)?.skip(1);
    while let Some(word) = words.next() {
        match word.as_str() {
            "--file" => {
                let missing = || unknown("--file with no path behind it");
                path = words.next().ok_or_else(missing)?;
            }
            "--help" => return Ok(Command::Help),
            option => return Err(unknown(option)),
        }
    }
    Ok(Command::Serve(path))
}

/// The error of an option that is not there.
fn unknown(option: &str) -> anyhow::Error {
    anyhow!("unknown option {option}; store --help lists those there are")
}

/// Answers each line of the input, in order.
fn serve(rt: &HostRuntime, rows: &Rows) -> anyhow::Result<()> {
    let heap = rt.alloc();
    let mut input = BufReader::new(heap, rt.stdin())?;
    let mut out = rt.stdout();
    // Both are used again for each line: `split` would make a new one for each.
    let mut line = Vec::new(heap);
    let mut text = String::new(heap);
    for _ in 0..u64::MAX {
        line.clear();
        if input.read_until(b'\n', &mut line)? == 0 {
            break;
        }
        let content = line.strip_suffix(b"\n").unwrap_or(line.as_slice());
        if let Some(answer) = answer::to_line(rows, content) {
            text.clear();
            // Writing to a `String` fails only where memory runs out.
            write!(text, "{answer}\n").map_err(|_| AllocError)?;
            out.write_all(text.as_bytes())?;
        }
    }
    Ok(())
}

fn run(rt: &HostRuntime) -> anyhow::Result<()> {
    // Where standard input, output or error is closed these take its number, so that the register does not.
    let _in = File::open(rt, "/dev/null")?;
    let _out = File::open(rt, "/dev/null")?;
    let _err = File::open(rt, "/dev/null")?;
    match command_line(rt)? {
        Command::Help => Ok(rt.print(HELP)?),
        Command::Serve(path) => {
            let lives = register::come_up(rt, path.as_str())?;
            println!(rt; "up {lives}")?;
            let rows = Rows::new(rt.alloc())?;
            serve(rt, &rows)
        }
    }
}

fn main(rt: HostRuntime) -> anyhow::Result<()> {
    run(&rt)
}
