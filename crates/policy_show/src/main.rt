// Shows what the reader answers of a policy file from standard input, or of each file that the arguments name, where `-` is standard input.
#![tactic(auto)]

mod show;

use std::alloc::Global;
use std::env::FillError;
use std::io;
use std::io::{Input, Read};
use std::rt::{Env, Files};

// One byte more than the longest policy file, of which the program needs no more: a fixed buffer tells it from a longer input.
const SPACE: usize = policy_reader::LARGEST_FILE + 1;

// Says on standard error what could not be read, and why.
fn unread(errors: &impl Print, alloc: Global, name: &[u8], why: &io::Error) -> io::Result<()> {
    errors.write_all(&capture_io::unread(alloc, name, why)?)
}

// The policy file that is read. A file that was not read to its end is not shown; one that fills the buffer is too long, whatever follows.
fn from(
    rt: &(impl Print + AllocGlobal),
    errors: &impl Print,
    input: &mut impl Read,
    name: &[u8],
) -> io::Result<()> {
    let mut buffer = [0u8; SPACE];
    let n = capture_io::read_full(input, &mut buffer);
    if n < SPACE {
        let mut next = [0u8; 1];
        match input.read(&mut next) {
            Ok(0) => {}
            Ok(_) => {
                errors.write_all(name)?;
                return errors.write_all(b": not read to its end\n");
            }
            Err(why) => return unread(errors, rt.alloc(), name, &why),
        }
    }
    show::file(rt, &buffer[..n])
}

fn input(rt: &(impl Input + Print + AllocGlobal), errors: &impl Print) -> io::Result<()> {
    from(rt, errors, &mut rt.reader(), b"standard input")
}

// The policy file of a name.
fn named(
    rt: &(impl Files + Input + Print + AllocGlobal),
    errors: &impl Print,
    name: &[u8],
) -> io::Result<()> {
    if name == b"-".as_slice() {
        return input(rt, errors);
    }
    match capture_io::open(rt, name) {
        Ok(mut file) => from(rt, errors, &mut file, name),
        Err(why) => unread(errors, rt.alloc(), name, &why),
    }
}

// The most bytes of a name that is shown whole: as many as a path has.
const NAME: usize = 4096;

// How much is shown of a name that is too long for a path.
const CUT: usize = 64;

// An argument that is longer than any path: its first bytes where the name would stand, and on standard error.
fn overlong(rt: &(impl Env + Print), errors: &impl Print, i: usize) -> io::Result<()> {
    let mut start = [0u8; CUT];
    // It does not fit, and fills what is lent.
    let _ = rt.arg(i, &mut start);
    rt.write_all(b"file ")?;
    rt.write_all(&start)?;
    rt.write_all(b"..\n")?;
    errors.write_all(&start)?;
    errors.write_all(b"..: File name too long\n")
}

// The policy file that an argument names, after a line with the name; whether there is such an argument.
fn argument(
    rt: &(impl Env + Files + Input + Print + AllocGlobal),
    errors: &impl Print,
    i: usize,
) -> io::Result<bool> {
    let mut name = [0u8; NAME];
    match rt.arg(i, &mut name) {
        Ok(length) => {
            rt.write_all(b"file ")?;
            rt.write_all(&name[..length])?;
            rt.write_all(b"\n")?;
            named(rt, errors, &name[..length])?;
        }
        Err(FillError::TooLong) => overlong(rt, errors, i)?,
        Err(FillError::NotPresent) => return Ok(false),
    }
    Ok(true)
}

// Whether there is an argument of this number, of any length.
fn is_given(rt: &impl Env, i: usize) -> bool {
    let mut start = [0u8; 1];
    !matches!(rt.arg(i, &mut start), Err(FillError::NotPresent))
}

// One more than the last argument that is shown; the program's own name is argument 0.
const END: usize = 1000;

fn main(rt: HostRuntime) -> io::Result<()> {
    let errors = rt.stderr();
    if !is_given(&rt, 1) {
        return input(&rt, &errors);
    }
    for i in 1..END {
        if !argument(&rt, &errors, i)? {
            return Ok(());
        }
    }
    if is_given(&rt, END) {
        errors.write_all(b"the first 999 names are shown, and no others\n")?;
    }
    Ok(())
}
