ghost use Rattle.std.specs.Prelude.{OnOk};
ghost use Rattle.day_cases.specs.Written.{Grown};

use super::words::put_words;
use anyhow::anyhow;
use std::alloc::{AllocError, Global};

// The number that a text begins with, and the text behind the space after it.
fn cut_number(text: &str) -> anyhow::Result<(u64, &str)> {
    let Some((number, rest)) = text.split_once(" ") else {
        return Err(anyhow!("a number and a space are missing"));
    };
    Ok((number.parse::<u64>()?, rest))
}

// Writes a line for each number from the first to the last, in the place of `#`.
fn put_each(
    heap: Global,
    out: &mut Vec<u8>,
    line: &str,
    first: u64,
    last: u64,
) -> Result<(), AllocError>
    ensures { OnOk result (Grown out.old.items out.new.items) }
{
    for n in first..=last {
        let number = format!(in heap; "{n}")?;
        put_words(out, line, number.as_str())?;
    }
    Ok(())
}

// Writes the lines of two numbers and a line.
pub(crate) fn put_repeated(heap: Global, out: &mut Vec<u8>, text: &str) -> anyhow::Result<()>
    ensures { OnOk result (Grown out.old.items out.new.items) }
{
    let (first, rest) = cut_number(text)?;
    let (last, line) = cut_number(rest)?;
    put_each(heap, out, line, first, last)?;
    Ok(())
}
