// Names in the command text: `\xHH` spells any byte, `\\` a backslash, and any other byte itself.
ghost use Rattle.std.specs.Prelude.{◌≡◌, ◌<◌, length, IfSome, IfOk, vec_items};
ghost use Rattle.std.specs.Option.{option_map};
ghost use Rattle.console.specs.Names.{hex, Plain, first_spelled, spelled, name_or_length};
ghost use Rattle.console.specs.Bytes.{two_digits};

use layout::name::Name;
use std::alloc::{AllocError, Global};

// The base of hexadecimal digits.
pub(crate) const RADIX: u8 = 0x10;

// The value of a hexadecimal digit, of either case. (`to_digit` of a `char` takes half as long again.)
pub fn hex_value(b: u8) -> Option<u8>
    ensures { result ≡ hex b }
{
    match b {
        b'0'..=b'9' => Some(b - b'0'),
        b'a'..=b'f' => Some(b - b'a' + 10),
        b'A'..=b'F' => Some(b - b'A' + 10),
        _ => None,
    }
}

// The byte of two digits, if both are.
pub(crate) fn parse_byte(high: u8, low: u8) -> Option<u8>
    ensures { result ≡ two_digits (hex high) (hex low) }
{
    let high = hex_value(high)?;
    let low = hex_value(low)?;
    Some(high * RADIX + low)
}

// The byte that a text spells first, and the text behind it.
#[tactic(auto, unfolding(crate::specs::Names::spelled))]
fn read_byte(text: &[u8]) -> Option<(u8, &[u8])>
    requires { 0 < length text.now }
    ensures value { first_spelled result ≡ spelled Plain text.now }
    ensures shorter { IfSome result (λ p. length p.1.now < length text.now) }
{
    match text {
        [b'\\', b'\\', behind @ ..] => Some((b'\\', behind)),
        [b'\\', b'x', high, low, behind @ ..] => Some((parse_byte(*high, *low)?, behind)),
        [b, behind @ ..] if *b != b'\\' => Some((*b, behind)),
        _ => None,
    }
}

// The bytes that the text spells, or none where an escape in it can't be read: an Option in a Result, since want of memory is another end.
#[tactic(auto, unfolding(crate::specs::Names::spelled))]
pub fn unescape(heap: Global, text: &[u8]) -> Result<Option<Vec<u8>>, AllocError>
    ensures { IfOk result (λ o. option_map vec_items o ≡ spelled Plain text.now) }
{
    let mut bytes = Vec::new(heap);
    let mut rest = text;
    while !rest.is_empty() {
        let Some((byte, behind)) = read_byte(rest) else {
            return Ok(None);
        };
        bytes.push(byte)?;
        rest = behind;
    }
    Ok(Some(bytes))
}

// More bytes than a name has.
#[derive(Clone, Copy, Debug, PartialEq, Eq)]
pub struct NameTooLong {
    pub len: usize,
}

// The name of the bytes, filled up with blanks, where they are not too many.
pub fn fill_name(bytes: &[u8]) -> Result<Name, NameTooLong>
    ensures { result ≡ name_or_length bytes.now }
{
    let len = bytes.len();
    if len > Name::SIZE {
        return Err(NameTooLong { len });
    }
    let mut own = [b' '; Name::SIZE];
    own[..len].copy_from_slice(bytes);
    Ok(Name { bytes: own })
}
