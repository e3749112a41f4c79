ghost use Rattle.std.specs.Prelude.{◌≡◌, ◌++◌, OnOk};
ghost use Rattle.fields.specs.Written.{columned};
ghost use Rattle.day_cases.specs.Written.{Grown};

use std::alloc::AllocError;

// Writes a word at the right end of sixteen columns.
fn put_word(out: &mut Vec<u8>, word: &[u8]) -> Result<(), AllocError>
    ensures { OnOk result (out.new.items ≡ out.old.items ++ columned 16 word.now) }
{
    let blanks = 16usize.saturating_sub(word.len());
    out.resize(out.len() + blanks, b' ')?;
    out.extend_from_slice(word)
}

// Writes a line in its columns: a letter, each word behind it in sixteen columns, and a line feed. The word `#` stands
// for a number.
pub(crate) fn put_words(out: &mut Vec<u8>, line: &str, number: &str) -> Result<(), AllocError>
    ensures { OnOk result (Grown out.old.items out.new.items) }
{
    let mut words = line.split_whitespace();
    let letter = words.next().unwrap_or("");
    out.extend_from_slice(letter.as_bytes())?;
    for word in words {
        let field = if word == "#" { number } else { word };
        put_word(out, field.as_bytes())?;
    }
    out.push(b'\n')?;
    Ok(())
}
