// The answers for stored captures: for each file that the arguments name a line with the name, and then the output of the check for it.
#![tactic(auto)]

use std::io;
use std::rt::{Env, Files};

// At most so many captures are tried.
const MOST: usize = 1000;

// The most bytes of an argument that is tried: as many as a path has.
const NAME: usize = 4096;

// The output for the capture of a name. launch_check has the same few lines for standard input; a function for both would need a crate above `capture`
// and `answer_text` for two programs. Input and output have fixed buffers, as the library asks for them.
fn stored<R: Files + Print + AllocGlobal>(
    rt: &R,
    errors: &impl Print,
    name: &[u8],
) -> io::Result<()> {
    let mut file = match capture_io::open(rt, name) {
        Ok(file) => file,
        Err(why) => {
            return errors.write_all(&capture_io::unread(rt.alloc(), name, &why)?);
        }
    };
    let mut buffer = [0u8; capture::INPUT];
    let mut pages = [0u64; answer_text::PLACES];
    let mut text = [0u8; answer_text::OUTPUT];
    let n = capture_io::read_whole(&mut file, &mut buffer);
    let a = capture::check(&buffer[..n], &mut pages);
    let len = answer_text::output(a, &pages, &mut text);
    rt.write_all(&text[..len])
}

// The capture that an argument names; whether there is such an argument. It is read into a buffer, since it may be no text, and `env::args` hands
// out text alone.
fn argument(
    rt: &(impl Env + Files + Print + AllocGlobal),
    errors: &impl Print,
    i: usize,
) -> io::Result<bool> {
    let mut name = [0u8; NAME];
    let Ok(length) = rt.arg(i, &mut name) else {
        return Ok(false);
    };
    rt.write_all(&name[..length])?;
    rt.write_all(b"\n")?;
    stored(rt, errors, &name[..length])?;
    Ok(true)
}

fn main(rt: HostRuntime) -> io::Result<()> {
    let errors = rt.stderr();
    for i in 1..=MOST {
        if !argument(&rt, &errors, i)? {
            break;
        }
    }
    Ok(())
}
