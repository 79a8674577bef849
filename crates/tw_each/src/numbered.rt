//! JSON lines with the number and the id of the line that they answer.

ghost use Rattle.std.specs.Prelude.{◌≡◌, ◌++◌, OnOk, option_map};
ghost use Rattle.tw_each.specs.Answers.{id_member, labelled};

use std::alloc::AllocError;
use tw_lexer::put_numbered;

/// Appends the member of an id, if there is one.
fn put_id(out: &mut Vec<u8>, id: &Option<Vec<u8>>) -> Result<(), AllocError>
    ensures { OnOk result (out.new.items ≡ out.old.items ++ id_member (option_map (λ id. id.items) id.now)) }
{
    match id {
        Some(id) => {
            out.extend_from_slice(b",\"id\":")?;
            out.extend_from_slice(id)
        }
        None => Ok(()),
    }
}

/// Appends an object's line with a number as its first member, then any id.
pub fn put_labelled_line(
    out: &mut Vec<u8>,
    number: usize,
    id: &Option<Vec<u8>>,
    line: &[u8],
) -> Result<(), AllocError>
    ensures { OnOk result (out.new.items ≡ out.old.items ++ labelled number (option_map (λ id. id.items) id.now) line.now) }
{
    put_numbered(out, "{\"line\":", number)?;
    put_id(out, id)?;
    out.extend_from_slice(b",")?;
    out.extend_from_slice(&line[1.min(line.len())..])
}
