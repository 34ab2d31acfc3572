// Runs the tool on the command lines of standard input, words with a space between them: each line, what the tool prints, errors too, and its status.
#![tactic(auto)]

use decimal::Page;
use std::io;
use std::rt::Files;
use system::Io;

fn main(rt: HostRuntime) -> io::Result<()> {
    let io = Io {
        rt: &rt,
        out: &rt,
        err: &rt,
    };
    let mut bytes = [0u8; 65536];
    let Ok(text) = io.read(b"-", &mut bytes) else {
        return Ok(());
    };
    runs(&io, text)
}

fn runs<R: Files + Input + Print + Eprint>(io: &Io<R, R, R>, text: &[u8]) -> io::Result<()> {
    for line in text.split_inclusive(|b| *b == b'\n') {
        run(io, line.strip_suffix(b"\n").unwrap_or(line))?;
    }
    Ok(())
}

fn run<R: Files + Input + Print + Eprint>(io: &Io<R, R, R>, line: &[u8]) -> io::Result<()> {
    io.out.write_all(b"$ ray ")?;
    io.out.write_all(line)?;
    io.out.write_all(b"\n")?;
    let mut bytes = [0u8; 4096];
    let mut words = Page::new(&mut bytes);
    split(line, &mut words);
    let status = tool::serve(io, words.written());
    println!(io.out; "status {status}")
}

// The line with a byte 0 behind each word.
fn split(line: &[u8], words: &mut Page) {
    if line.is_empty() {
        return;
    }
    for word in line.split(|b| *b == b' ') {
        words.text(word);
        words.put(0);
    }
}
