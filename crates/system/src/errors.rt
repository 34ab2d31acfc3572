// What is said where a command cannot be done.
use decimal::Page;
use std::io;
use std::io::{Cursor, Write};

// `ray: ` and a line: a word stands in it as it was given.
pub(crate) fn say<P: Print>(to: &P, before: &[u8], word: &[u8], after: &[u8]) {
    let mut bytes = [0u8; 65536];
    let mut page = Page::new(&mut bytes);
    page.text(b"ray: ");
    page.text(before);
    names::plains(word, &mut page);
    page.text(after);
    let _ = to.write_all(page.written());
}

// Why a call on the named file failed, in the system's own words.
pub(crate) fn failed<R: Eprint>(rt: &R, name: &[u8], error: io::Error) {
    let mut bytes = [0u8; 65536];
    let mut page = Page::new(&mut bytes);
    names::plains(name, &mut page);
    if let Ok(shown) = str::from_utf8(page.written()) {
        explain(rt, shown, error);
    }
}

fn explain<R: Eprint>(rt: &R, name: &str, error: io::Error) {
    let mut why = [0u8; 256];
    let mut to = Cursor::new(&mut why[..]);
    let _ = write!(to, "{error}");
    let end = (to.position() as usize).min(why.len());
    if let Ok(whole) = str::from_utf8(&why[..end]) {
        let words = without_number(whole);
        let _ = eprintln!(rt; "ray: {name}: {words}");
    }
}

// The words without the error's number, which std puts behind them.
fn without_number(why: &str) -> &str {
    match why.split_once(" (os error ") {
        Some((words, _)) => words,
        None => why,
    }
}
