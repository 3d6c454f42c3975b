//! What the clients of a script are told at last if the disk fails in one of its lines.

use crate::fault::Fault;
use std::alloc::Global;

/// What is written for each line of a script if the disk fails in it: that each open connection is told EIO, and has
/// ended, in rising number. A line `stop` has none, since it takes the connections away.
pub(crate) fn last_words_of(alloc: Global, script: &[u8]) -> Result<Vec<String>, Fault> {
    let mut opened = Vec::new(alloc);
    let mut all = Vec::new(alloc);
    for line in script.split(|byte| *byte == b'\n') {
        take_line(&mut opened, line)?;
        all.push(last_words(alloc, &opened)?)?;
    }
    Ok(all)
}

/// Opens or closes the connection that a line names. Numbers are of one digit, and come in rising order.
fn take_line(opened: &mut Vec<u8>, line: &[u8]) -> Result<(), Fault> {
    let mut words = line.split(|byte| *byte == b' ').skip(1);
    let (word, conn) = (words.next(), words.next());
    if line == b"stop".as_slice() {
        opened.clear();
    }
    if let (Some(word), Some([digit])) = (word, conn) {
        if word == b"open".as_slice() {
            opened.push(*digit)?;
        } else if word == b"end".as_slice() {
            opened.retain(|other| other != digit);
        }
    }
    Ok(())
}

/// The EIO frame and the end of each connection.
fn last_words(alloc: Global, opened: &[u8]) -> Result<String, Fault> {
    let mut words = String::new(alloc);
    for digit in opened {
        let conn = char::from(*digit);
        words.push_str(&format!(in alloc; "{conn} 00000006000000000005\n{conn} end\n")?)?;
    }
    Ok(words)
}
