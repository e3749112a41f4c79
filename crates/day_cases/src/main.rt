// Answers many small days, so that a table of cases is two text files: the cases on standard input, and their answers on
// standard output.
//
// A case begins with a line `= title`, and its input is what the lines after it stand for:
//
// - a letter and words: the letter, each word at the right end of sixteen columns, and a line feed;
// - `%`, two numbers and such a line: the line once for each number from the first to the second, in the place of `#`;
// - `~` and text: the bytes of the text, where `\n` is a line feed and `\xHH` the byte of two hexadecimal digits; no line
//   feed is added;
// - `#` and a comment, or nothing at all: no byte.
//
// The answer to a case is its title and the lines that the desk answers its input with, closed up to one space between
// the fields.
#![tactic(auto)]

ghost use Rattle.std.specs.Prelude.{OnOk};
ghost use Rattle.day_cases.specs.Written.{Grown};

mod closing_up;
mod escapes;
mod repeats;
mod words;

use closing_up::put_closed;
use desk::output::output;
use escapes::put_bytes;
use repeats::put_repeated;
use std::alloc::Global;
use std::io;
use std::io::Write;
use std::str::from_utf8;
use words::put_words;

// Writes the bytes that a line of a case stands for.
fn put_line(heap: Global, day: &mut Vec<u8>, line: &str) -> anyhow::Result<()>
    ensures { OnOk result (Grown day.old.items day.new.items) }
{
    if line.is_empty() || line.starts_with("#") {
        return Ok(());
    }
    if let Some(text) = line.strip_prefix("~") {
        return put_bytes(day, text.as_bytes());
    }
    if let Some(text) = line.strip_prefix("% ") {
        return put_repeated(heap, day, text);
    }
    put_words(day, line, "#")?;
    Ok(())
}

// Writes the title of a case and the answer to its day.
fn put_case(heap: Global, out: &mut Vec<u8>, title: &str, day: &[u8]) -> anyhow::Result<()>
    ensures { OnOk result (Grown out.old.items out.new.items) }
{
    out.extend_from_slice(title.as_bytes())?;
    out.push(b'\n')?;
    let answer = output(heap, day)?;
    for line in from_utf8(&answer)?.lines() {
        put_closed(out, line.as_bytes())?;
    }
    Ok(())
}

// The answers to all cases of a text.
fn answers(heap: Global, text: &str) -> anyhow::Result<Vec<u8>> {
    let mut out = Vec::new(heap);
    let mut day = Vec::new(heap);
    let mut begun: Option<&str> = None;
    for line in text.lines() {
        if !line.starts_with("= ") {
            put_line(heap, &mut day, line)?;
            continue;
        }
        if let Some(title) = begun {
            put_case(heap, &mut out, title, &day)?;
        }
        begun = Some(line);
        day.clear();
    }
    if let Some(title) = begun {
        put_case(heap, &mut out, title, &day)?;
    }
    Ok(out)
}

// Answers standard input on standard output.
fn run(rt: &HostRuntime) -> anyhow::Result<()> {
    let text = io::read_to_string(rt.alloc(), rt.stdin())?;
    let answers = answers(rt.alloc(), text.as_str())?;
    rt.stdout().write_all(&answers)?;
    Ok(())
}

fn main(rt: HostRuntime) -> anyhow::Result<()> {
    run(&rt)
}
