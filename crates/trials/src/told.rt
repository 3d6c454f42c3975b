//! Sentences in which numbers stand: what a run has counted, and which case is wrong.

use std::fmt;

/// Words in which each `#` stands for one of the numbers.
#[derive(Clone, Copy)]
pub(crate) struct Told {
    words: &'static str,
    numbers: [u64; 8],
}

impl Told {
    pub(crate) fn new(words: &'static str, numbers: &[u64]) -> Told {
        Told {
            words,
            numbers: filled(numbers),
        }
    }
}

/// Some numbers, and zeros up to so many.
pub(crate) fn filled<const N: usize>(numbers: &[u64]) -> [u64; N] {
    let mut all = [0; N];
    for (to, from) in all.iter_mut().zip(numbers) {
        *to = *from;
    }
    all
}

impl fmt::Display for Told {
    fn fmt<W: fmt::Write>(&self, f: &mut fmt::Formatter<W>) -> fmt::Result {
        write_told(f, self.words, &self.numbers)
    }
}

/// Writes words, with the numbers in their places.
pub(crate) fn write_told<W: fmt::Write>(
    f: &mut fmt::Formatter<W>,
    words: &str,
    numbers: &[u64],
) -> fmt::Result {
    let mut numbers = numbers.iter();
    for (place, part) in words.split('#').enumerate() {
        if place > 0 {
            write!(f, "{}", numbers.next().unwrap_or(&0))?;
        }
        f.write_str(part)?;
    }
    Ok(())
}
