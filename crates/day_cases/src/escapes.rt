ghost use Rattle.std.specs.Prelude.{◌<◌, IfSome, OnOk};
ghost use Rattle.day_cases.specs.Written.{Grown};

use anyhow::anyhow;

// How far an escape has been read.
#[derive(Clone, Copy)]
enum Escape {
    Outside,
    AfterBackslash,
    AfterX,
    AfterDigit(u8),
}

// The value of a hexadecimal digit.
fn digit(b: u8) -> Option<u8>
    ensures { IfSome result (λ d. d < 16) }
{
    match b {
        b'0'..=b'9' => Some(b - b'0'),
        b'A'..=b'F' => Some(b - b'A' + 10),
        _ => None,
    }
}

// What the next byte of a text makes of an escape, and the byte that it then stands for, if it is finished.
fn step(escape: Escape, b: u8) -> anyhow::Result<(Escape, Option<u8>)> {
    match (escape, b) {
        (Escape::Outside, b'\\') => Ok((Escape::AfterBackslash, None)),
        (Escape::Outside, _) => Ok((Escape::Outside, Some(b))),
        (Escape::AfterBackslash, b'n') => Ok((Escape::Outside, Some(b'\n'))),
        (Escape::AfterBackslash, b'x') => Ok((Escape::AfterX, None)),
        (Escape::AfterBackslash, _) => Err(anyhow!("after a backslash stands n or x")),
        (Escape::AfterX, _) => match digit(b) {
            Some(high) => Ok((Escape::AfterDigit(high), None)),
            None => Err(anyhow!("after x stand two hexadecimal digits")),
        },
        (Escape::AfterDigit(high), _) => match digit(b) {
            Some(low) => Ok((Escape::Outside, Some(high << 4 | low))),
            None => Err(anyhow!("after x stand two hexadecimal digits")),
        },
    }
}

// Writes a text's bytes, with those that escapes stand for.
pub(crate) fn put_bytes(out: &mut Vec<u8>, text: &[u8]) -> anyhow::Result<()>
    ensures { OnOk result (Grown out.old.items out.new.items) }
{
    let mut escape = Escape::Outside;
    for b in text {
        let (after, byte) = step(escape, *b)?;
        escape = after;
        if let Some(byte) = byte {
            out.push(byte)?;
        }
    }
    match escape {
        Escape::Outside => Ok(()),
        _ => Err(anyhow!("an escape is not finished")),
    }
}
