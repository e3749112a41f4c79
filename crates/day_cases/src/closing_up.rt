ghost use Rattle.std.specs.Prelude.{OnOk};
ghost use Rattle.day_cases.specs.Written.{Grown};

use std::alloc::AllocError;

// Writes a line of an answer with its fields closed up: the spaces before each become one.
pub(crate) fn put_closed(out: &mut Vec<u8>, line: &[u8]) -> Result<(), AllocError>
    ensures { OnOk result (Grown out.old.items out.new.items) }
{
    if let Some((letter, fields)) = line.split_first() {
        out.push(*letter)?;
        for field in fields.chunks(16) {
            out.push(b' ')?;
            out.extend_from_slice(field.trim_ascii_start())?;
        }
    }
    out.push(b'\n')?;
    Ok(())
}
