// Words and verbs.
ghost use Rattle.std.specs.Prelude.{◌≡◌};
ghost use Rattle.command.specs.Line.{verb_of, word_of, count_of};

// What the tool is asked to do.
#[derive(Clone, Copy, Debug, PartialEq, Eq)]
pub enum Verb {
    Show,
    Draw,
    Job,
    Check,
    Words,
    Ask,
    Es,
    Help,
}

// No `TryFrom`: its error would say nothing.
pub fn verb_of(word: &[u8]) -> Option<Verb>
    ensures { result ≡ verb_of word.now }
{
    match word {
        b"show" => Some(Verb::Show),
        b"draw" => Some(Verb::Draw),
        b"job" => Some(Verb::Job),
        b"check" => Some(Verb::Check),
        b"words" => Some(Verb::Words),
        b"ask" => Some(Verb::Ask),
        b"es" => Some(Verb::Es),
        b"help" | b"--help" | b"-h" => Some(Verb::Help),
        _ => None,
    }
}

// Word i, counted from 0; nothing where there are not so many. What has no byte 0 behind it goes to the line's end.
pub fn word(line: &[u8], i: usize) -> &[u8]
    ensures { result.now ≡ word_of line.now i }
{
    line.split(|b| *b == 0).nth(i).unwrap_or(&[])
}

// How many words there are, by the bytes 0 behind them.
pub fn count(line: &[u8]) -> usize
    ensures { result ≡ count_of line.now }
{
    line.iter().filter(|b| **b == 0).count()
}
