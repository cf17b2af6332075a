//! Scripts: one call a line, and one line of answer for each.

use calls::faults::Fault;
use std::alloc::Global;
use std::fmt::Display;

// What makes the calls that the lines of a script say.
pub trait Maker {
    type Answer: Display + Drop;

    type Refusal: Display + Drop;

    // That words are no call.
    type Wrong: Display + Drop;

    // Makes the call of a line's words; nothing where there is none.
    fn make(
        &mut self,
        heap: Global,
        words: &[&str],
    ) -> Result<Option<Result<Self::Answer, Self::Refusal>>, Fault<Self::Wrong>>;
}

// Makes the call of each line that has one, and prints its answer or refusal; a wrong line is told by its number. A word that
// begins with # starts a comment.
// Kept: the words are not had by `words_of` of `script`, as the program parts words at other white space too.
pub fn each_line<M: Maker>(rt: &HostRuntime, maker: &mut M, script: &str) -> anyhow::Result<()> {
    for (i, line) in script.lines().enumerate() {
        let words: Vec<&str> = line
            .split_whitespace()
            .take_while(|word| !word.starts_with('#'))
            .collect(rt.alloc())?;
        match maker.make(rt.alloc(), words.as_slice()) {
            Ok(Some(Ok(answer))) => println!(rt; "{answer}")?,
            Ok(Some(Err(refusal))) => println!(rt; "{refusal}")?,
            Ok(None) => {}
            Err(Fault::Wrong(wrong)) => println!(rt; "line {}: {wrong}", i + 1)?,
            Err(Fault::Memory(error)) => return Err(error.into()),
        }
    }
    Ok(())
}
