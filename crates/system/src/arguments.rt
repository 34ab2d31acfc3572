// The program's arguments, as one line.
#![tactic(auto, using(decimal::proofs::PageLaws::extends))]

ghost use Rattle.std.specs.Prelude.{◌≤◌};
ghost use Rattle.decimal.specs.Page.{Extends};

use decimal::Page;
use std::env::FillError;
use std::rt::Env;

// The words behind the line, where every one is whole.
pub fn gather<R: Env>(rt: &R, line: &mut Page) -> Result<(), FillError>
    ensures { Extends line.old line.new }
{
    for i in 1..few(rt) {
        add(rt, line, i)?;
    }
    Ok(())
}

// How many arguments there are. No command takes more than 9 words: of more than 10 the first 10 tell as much.
fn few<R: Env>(rt: &R) -> usize
    ensures { result ≤ 11 }
{
    (0..11).find(|i| !is_there(rt, *i)).unwrap_or(11)
}

// Asked for one by one: std's `args` allocates, and takes no word that is not UTF-8.
fn is_there<R: Env>(rt: &R, i: usize) -> bool {
    !matches!(rt.arg(i, &mut []), Err(FillError::NotPresent))
}

// Argument i behind the line, and its byte 0.
fn add<R: Env>(rt: &R, line: &mut Page, i: usize) -> Result<(), FillError>
    ensures { Extends line.old line.new }
{
    let mut word = [0u8; 4095];
    let n = rt.arg(i, &mut word)?;
    line.text(&word[..n]);
    line.put(0);
    Ok(())
}
