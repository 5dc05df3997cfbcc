// What the programs read and write: arguments, files by name, standard input and output. Where one cannot be read or written, standard
// error has a line that says why.
#![tactic(auto)]

ghost use Rattle.std.specs.Prelude.{IfOk};
ghost use Rattle.text.specs.Counts.{IsPrefixLen};
ghost use Rattle.arguments.specs.Loaded.{Holds};
ghost use Rattle.arguments.specs.Numbers.{Said};

use std::env::FillError;
use std::fs::File;
use std::io;
use std::io::Read;
use std::rt::{Env, Files};

// Argument i as a number.
pub fn number(rt: &impl Env, i: usize) -> Option<usize>
    ensures { Said result }
{
    let mut word = [0u8; 64];
    match rt.arg(i, &mut word) {
        Ok(n) => text::value(&word[..n]),
        Err(_) => None,
    }
}

// A line on standard error: what failed, and the system's words for why.
fn fail(rt: &(impl Eprint + Alloc), what: &str, error: io::Error) {
    let _ = match error.to_string(rt.alloc()) {
        Ok(words) => match words.as_str().split_once(" (os error ") {
            Some((reason, _)) => eprintln!(rt; "{what}: {reason}"),
            None => eprintln!(rt; "{what}: {words}"),
        },
        Err(_) => eprintln!(rt; "{what}: {error}"),
    };
}

// Reads until the buffer is full or there is no more, and answers how many bytes it put at the buffer's start.
fn read_full(file: &mut impl Read, buf: &mut [u8]) -> io::Result<usize>
    ensures { IfOk result (λ n. IsPrefixLen n buf.new) }
{
    let mut done = 0;
    while done < buf.len() {
        let n = file.read(&mut buf[done..])?;
        if n == 0 {
            break;
        }
        done += n;
    }
    Ok(done)
}

// As read_full, of a file that could be read as far as it was: a last read meets the end, or more than the buffer holds.
fn read_all(file: &mut impl Read, buf: &mut [u8]) -> io::Result<usize>
    ensures { IfOk result (λ n. IsPrefixLen n buf.new) }
{
    let n = read_full(file, buf)?;
    let mut more = [0u8; 1];
    file.read(&mut more)?;
    Ok(n)
}

// How many of the open file's bytes the buffer has: all of them unless it is full.
fn read_open(
    rt: &(impl Eprint + Alloc),
    file: &mut impl Read,
    path: &str,
    buf: &mut [u8],
) -> Option<usize>
    ensures { Holds result buf.new }
{
    match read_all(file, buf) {
        Ok(n) => Some(n),
        Err(e) => {
            fail(rt, path, e);
            None
        }
    }
}

// The system's numbers of errors (EINVAL, ENAMETOOLONG, EILSEQ) for an argument that is missing, that is too long for a path, and that is
// no text, as a path here has to be.
const MISSING: i32 = 22;

const TOO_LONG: i32 = 36;

const NO_TEXT: i32 = 84;

// The bytes of the file that argument i names; how many the buffer has, all of them unless it is full.
pub fn load(rt: &(impl Env + Files + Eprint + Alloc), i: usize, buf: &mut [u8]) -> Option<usize>
    ensures { Holds result buf.new }
{
    let mut word = [0u8; 4096];
    let n = match rt.arg(i, &mut word) {
        Ok(n) => n,
        Err(e) => {
            let code = match e {
                FillError::NotPresent => MISSING,
                FillError::TooLong => TOO_LONG,
            };
            fail(rt, "path", io::Error::from_raw_os_error(code));
            return None;
        }
    };
    let Ok(path) = str::from_utf8(&word[..n]) else {
        fail(rt, "path", io::Error::from_raw_os_error(NO_TEXT));
        return None;
    };
    match File::open(rt, path) {
        Ok(mut file) => read_open(rt, &mut file, path, buf),
        Err(e) => {
            fail(rt, path, e);
            None
        }
    }
}

// The bytes of standard input; how many the buffer has.
pub fn input(rt: &(impl Input + Eprint + Alloc), buf: &mut [u8]) -> Option<usize>
    ensures { Holds result buf.new }
{
    read_open(rt, &mut rt.reader(), "standard input", buf)
}

// Writes to standard output, and answers whether all the bytes are written.
pub fn say(rt: &(impl Print + Eprint + Alloc), bytes: &[u8]) -> bool {
    match rt.write_all(bytes) {
        Ok(()) => true,
        Err(e) => {
            fail(rt, "standard output", e);
            false
        }
    }
}
