//! Makes one call of the library, as its arguments say, and prints a line: the length and checksum
//! of what the call made, or its error. `evidence/memory/run` makes its allocations fail.
#![tactic(auto)]

mod bits;
mod canvas;
mod constructors;
mod correction;
mod digest;
mod files;
mod pictures;
mod readings;
mod segments;
mod symbols;
mod word;
mod words;

use bits::Note;
use digest::Digest;
use qrcode::types::QrResult;
use std::alloc::Global;
use std::io::Print;
use std::process::ExitCode;
use std::{env, io};
use words::{Argument, Call};

fn main(rt: HostRuntime) -> ExitCode {
    match print_answer(&rt) {
        Ok(()) => ExitCode::SUCCESS,
        Err(_) => ExitCode::FAILURE,
    }
}

// Makes the call of the command line, and prints its line.
fn print_answer(rt: &HostRuntime) -> io::Result<()> {
    let Ok(arguments) = env::args(rt) else {
        return println!(rt; "out of memory");
    };
    match answer(rt.alloc(), arguments) {
        Ok((digest, note)) => print_made(rt, digest, note),
        Err(error) => println!(rt; "{error}"),
    }
}

// Prints a digest, and what a failed push did.
fn print_made<R: Print>(rt: &R, digest: Digest, note: Note) -> io::Result<()> {
    let Digest { length, sum } = digest;
    print!(rt; "length {length}, checksum {sum:08x}")?;
    match note {
        Note::Whole => println!(rt; ""),
        Note::Unchanged => println!(rt; "; refused, the list unchanged"),
        Note::Kept => println!(rt; "; refused, a part kept"),
    }
}

// Makes the call that the arguments name: call, kind, version, level, and then data.
fn answer(alloc: Global, arguments: env::Args) -> QrResult<(Digest, Note)> {
    let words: Vec<String> = arguments.collect(alloc)?;
    let mut given = Vec::new(alloc);
    for word in words.iter().skip(5) {
        given.push(Argument::read(alloc, word)?)?;
    }
    let asked = Call {
        kind: word_at(&words, 2),
        version: word_at(&words, 3),
        level: word_at(&words, 4),
        given: &given,
    };
    match word_at(&words, 1) {
        "bits" => bits::run(alloc, &asked),
        call => Ok((made(alloc, call, &asked)?, Note::Whole)),
    }
}

// Returns the word at index `at`, or an empty one if there are fewer.
fn word_at(words: &[String], at: usize) -> &str {
    words.get(at).map_or("", |word| word.as_str())
}

// Makes the call. Any other name, as `alone`, only reads the data.
fn made(alloc: Global, call: &str, asked: &Call<'_>) -> QrResult<Digest> {
    match call {
        "segments" => segments::run(alloc, asked),
        "correction" => correction::run(alloc, asked),
        "canvas" => canvas::run(alloc, asked),
        "code" => constructors::run(alloc, asked),
        "symbol" => symbols::run(alloc, asked),
        "picture" => pictures::run(alloc, asked),
        "file" => files::run(alloc, asked),
        "read" => readings::run(alloc, asked),
        _ => Ok(Digest::of_sum(asked.data().len(), 1)),
    }
}
