// Bytes in the command text: two hexadecimal digits each.
ghost use Rattle.std.specs.Prelude.{◌≡◌, IfOk, vec_items};
ghost use Rattle.std.specs.Option.{option_map};
ghost use Rattle.console.specs.Bytes.{line_bytes};

use crate::escape::parse_byte;
use crate::words::is_blank;
use std::alloc::{AllocError, Global};

// The bytes that the line writes, or none where it is no line of bytes: an Option in a Result, since want of memory is another end.
#[tactic(auto, unfolding(crate::specs::Bytes::line_bytes))]
pub fn parse_bytes(heap: Global, line: &[u8]) -> Result<Option<Vec<u8>>, AllocError>
    ensures { IfOk result (λ o. option_map vec_items o ≡ line_bytes line.now) }
{
    let mut bytes = Vec::new(heap);
    let mut rest = line;
    loop {
        rest = match rest {
            [] => return Ok(Some(bytes)),
            [b, behind @ ..] if is_blank(*b) => behind,
            [high, low, behind @ ..] => {
                let Some(byte) = parse_byte(*high, *low) else {
                    return Ok(None);
                };
                bytes.push(byte)?;
                behind
            }
            [_] => return Ok(None),
        };
    }
}
