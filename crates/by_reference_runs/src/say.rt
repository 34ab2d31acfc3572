// What is printed: a name and its words, floats by their bits in hexadecimal.
use std::io;

pub(crate) fn floats(rt: &impl Print, name: &str, xs: &[f32]) -> io::Result<()> {
    print!(rt; "  {name}")?;
    for x in xs {
        print!(rt; " {:08x}", words::bits(*x))?;
    }
    println!(rt)
}

pub(crate) fn numbers(rt: &impl Print, name: &str, ns: &[u32]) -> io::Result<()> {
    print!(rt; "  {name}")?;
    for n in ns {
        print!(rt; " {n}")?;
    }
    println!(rt)
}

pub(crate) fn count(rt: &impl Print, name: &str, n: usize) -> io::Result<()> {
    println!(rt; "  {name} {n}")
}
