// The examples, each answered and held to the answer that the text beside it tells: the lines that begin with four blanks, up to the next blank.
// The file `args` has the name of each house file or circuit and behind it that of its text. A circuit begins with `aag`.
#![tactic(auto)]

ghost use Rattle.std.specs.Prelude.{◌≤◌, IfOk, vec_len};
ghost use Rattle.examples_run.specs.declared.TheConstants.{FILE};

use std::alloc::{AllocError, Global};
use std::io::Read;
use std::rt::Files;
use std::{env, fs, io};

// The longest file.
const FILE: usize = 38000;

const ANSWER: usize = 13359;

// The longest name.
const NAME: usize = 64;

// What the file holds, as far as there is room and it can be read; nothing if it cannot be opened.
fn read_file(rt: &(impl Files + Eprint), alloc: Global, name: &str) -> io::Result<Vec<u8>>
    ensures { IfOk result (λ bytes. vec_len bytes ≤ FILE) }
{
    let mut bytes = Vec::new(alloc);
    match fs::open(rt, name) {
        Ok(file) => match file.take(FILE as u64).read_to_end(&mut bytes) {
            Err(error) if error.kind() == io::ErrorKind::OutOfMemory => return Err(error),
            _ => {}
        },
        Err(error) => {
            let _ = eprintln!(rt; "{name}: {error}");
        }
    }
    // A file promises no length of what is read from it, so the limit is kept here.
    bytes.truncate(FILE);
    Ok(bytes)
}

// The answer that a text tells.
fn told_by(alloc: Global, text: &[u8]) -> Result<Vec<u8>, AllocError> {
    let mut told = Vec::new(alloc);
    for line in text.split_inclusive(|b| *b == b'\n') {
        let Some(rest) = line.strip_prefix(b"    ") else {
            continue;
        };
        match rest.iter().position(|b| *b == b' ') {
            Some(end) => {
                told.extend_from_slice(&rest[..end])?;
                told.push(b'\n')?;
            }
            None => told.extend_from_slice(rest)?,
        }
    }
    told.truncate(ANSWER);
    Ok(told)
}

// Whether this is the answer to the house file or the circuit.
fn is_answer(file: &[u8], told: &[u8]) -> bool {
    let mut answer = [0u8; ANSWER];
    let length = if file.starts_with(b"aag") {
        circuit_answer::answer(file, &mut answer)
    } else {
        answer::answer(file, &mut answer)
    };
    &answer[..length.min(ANSWER)] == told
}

// An argument; one that is missing, or longer than a name may be, is empty.
fn name(argument: Option<&String>) -> &str {
    match argument {
        Some(it) if it.len() <= NAME => it.as_str(),
        _ => "",
    }
}

// An example: the name of its file, and that of its text.
fn example(rt: &(impl Files + Print + Eprint), alloc: Global, names: &[String]) -> io::Result<()> {
    let file_name = name(names.first());
    let file = read_file(rt, alloc, file_name)?;
    let text = read_file(rt, alloc, name(names.get(1)))?;
    let told = told_by(alloc, text.as_slice())?;
    if is_answer(file.as_slice(), told.as_slice()) {
        println!(rt; "{file_name}: as told")
    } else {
        println!(rt; "{file_name}: not as told")
    }
}

// Argument 0 is the program's own name.
fn main(rt: HostRuntime) -> io::Result<()> {
    let names: Vec<String> = env::args(&rt)?.skip(1).collect(rt.alloc())?;
    for pair in names.chunks(2) {
        example(&rt, rt.alloc(), pair)?;
    }
    Ok(())
}
