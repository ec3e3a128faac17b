// The program of document 01, "Desk sessions": it makes a server with the password `desk`, reads programs from standard input, each ended by its
// `***` line, and prints their lines. It stops after EXITING or at the end of the input, where an unfinished program is dropped. Where the input can
// be set back, the bytes after the session's end are left to whoever reads on.
#![tactic(auto)]

use answers::{Answer, Kind};
use std::io;
use std::io::{BufRead, Lock, StdinLock, Stdout, Write};
use stream::Reading;

// The reading after some of the input was taken, and whether to go on.
#[derive(Clone, Copy)]
struct Taken {
    reading: Reading,
    goes_on: bool,
}

fn goes_on_after(kind: Kind) -> bool {
    match kind {
        Kind::Returned => true,
        Kind::Exited => false,
        Kind::Refused(_) => true,
    }
}

// Prints the first bytes of the output. The answer is whether it has so many.
fn print(out: &mut Stdout, output: &[u8], bytes: usize) -> io::Result<bool> {
    if output.len() < bytes {
        return Ok(false);
    }
    out.write_all(&output[0..bytes])?;
    Ok(true)
}

// Runs the program that was read and prints its lines. The answer is whether to go on. All buffers are of the right size and the server is open, so
// the program has an end.
fn serve(
    out: &mut Stdout,
    state: &mut [u8],
    work: &mut [u8],
    output: &mut [u8],
    program: &[u8],
    reading: Reading,
) -> io::Result<bool> {
    let len = stream::kept(reading, program);
    let answer = run::program(state, work, output, &program[0..len]);
    match answer {
        Answer::Wrong(_) => Ok(false),
        Answer::Ended(f) => {
            let kind = f.kind;
            let printed = print(out, output, f.bytes)?;
            Ok(printed && goes_on_after(kind))
        }
        Answer::Yes(_) => Ok(false),
        Answer::No => Ok(false),
        Answer::Ready => Ok(false),
        Answer::Listed { lines: _, bytes: _ } => Ok(false),
    }
}

// Takes one byte. Where it ends a program, that is run.
fn take_byte(
    out: &mut Stdout,
    state: &mut [u8],
    work: &mut [u8],
    output: &mut [u8],
    program: &mut [u8],
    reading: Reading,
    b: u8,
) -> io::Result<Taken> {
    if b == b'\n' && stream::is_last(reading) {
        let goes_on = serve(out, state, work, output, program, reading)?;
        return Ok(Taken {
            reading: stream::fresh(),
            goes_on,
        });
    }
    Ok(Taken {
        reading: stream::with_byte(program, reading, b),
        goes_on: true,
    })
}

// Takes the next byte of the input, if there is one. What was read beyond it stays with the lock, which sets the input back to it when it is let go.
fn next_byte(input: &mut StdinLock<'_>) -> io::Result<Option<u8>> {
    let chunk = input.fill_buf()?;
    if chunk.is_empty() {
        return Ok(None);
    }
    let b = chunk[0];
    input.consume(1);
    Ok(Some(b))
}

// Takes the next byte. Where the input is over, a last line without its newline ends a program as well, and any other rest is dropped.
fn step(
    input: &mut StdinLock<'_>,
    out: &mut Stdout,
    state: &mut [u8],
    work: &mut [u8],
    output: &mut [u8],
    program: &mut [u8],
    reading: Reading,
) -> io::Result<Taken> {
    match next_byte(input)? {
        Some(b) => take_byte(out, state, work, output, program, reading, b),
        None => {
            if stream::is_last(reading) {
                serve(out, state, work, output, program, reading)?;
            }
            Ok(Taken {
                reading,
                goes_on: false,
            })
        }
    }
}

// A proved loop has to end, and nothing says that the input does. So the loop counts its turns, up to a number that no run reaches.
fn session(
    input: &mut StdinLock<'_>,
    out: &mut Stdout,
    state: &mut [u8],
    work: &mut [u8],
    output: &mut [u8],
    program: &mut [u8],
) -> io::Result<()> {
    let mut reading = stream::fresh();
    for _ in 0..u64::MAX {
        let taken = step(input, out, state, work, output, program, reading)?;
        if !taken.goes_on {
            break;
        }
        reading = taken.reading;
    }
    Ok(())
}

fn main(rt: HostRuntime) -> io::Result<()> {
    let mut state = [0u8; 65536];
    let mut work = [0u8; 65536];
    let mut output = [0u8; 65536];
    let mut program = [0u8; 16385];
    make::server(&mut state, b"desk");
    let mut input = rt.stdin().lock();
    let mut out = rt.stdout();
    session(
        &mut input,
        &mut out,
        &mut state,
        &mut work,
        &mut output,
        &mut program,
    )
}
