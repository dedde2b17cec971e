// Numbers, bytes and names as they are printed, put behind what is printed before.
// No `Display`: its contract would say nothing of the bytes. Each function says in its own clause what it puts behind the text, for a name for that would be as long.
ghost use Rattle.std.specs.Prelude.{◌≡◌, ◌<◌, ◌≤◌, ◌++◌, length, Some, OnOk, nat_eq};
ghost use Rattle.std.specs.List.{suffix_len};
ghost use Rattle.console.specs.Bytes.{lines_bytes};
ghost use Rattle.console.specs.Lines.{lines};
ghost use Rattle.console.specs.Numbers.{decimal};
ghost use Rattle.console.specs.Shown.{shown_number, hex_digit, shown_byte, shown_line, shown_bytes, plain, escaped, shown_char, shown_chars, shown_first, shown_length, shown_name, NameBack};

use crate::escape::RADIX;
use layout::name::Name;
use std::alloc::AllocError;
use std::io::Write;

// How many bytes are printed to a line.
const LINE: usize = 0x10;

// The number in decimal.
#[tactic(auto, using(crate::proofs::Digits::shown_printed, crate::proofs::Digits::number_read_back))]
pub fn push_number(out: &mut Vec<u8>, n: u64) -> Result<(), AllocError>
    ensures text { OnOk result (out.new.items ≡ out.old.items ++ shown_number n) }
    ensures back { decimal (shown_number n) ≡ Some n }
{
    write!(out, "{n}").or(Err(AllocError))
}

// A hexadecimal digit, in lower case. (`char::from_digit` gives an Option, which a number below sixteen doesn't need.)
#[tactic(auto, unfolding(crate::specs::Shown::hex_digit))]
fn hex_digit(n: u8) -> u8
    requires { n < 16 }
    ensures { result ≡ hex_digit n }
{
    if n < 10 { b'0' + n } else { b'a' + (n - 10) }
}

// The byte, as two digits.
#[tactic(auto, unfolding(crate::specs::Shown::shown_byte))]
fn push_byte(out: &mut Vec<u8>, b: u8) -> Result<(), AllocError>
    ensures { OnOk result (out.new.items ≡ out.old.items ++ shown_byte b) }
{
    out.extend_from_slice(&[hex_digit(b / RADIX), hex_digit(b % RADIX)])
}

// One line of bytes: a line feed behind the last, a blank behind each other.
#[tactic(auto, unfolding(crate::specs::Shown::shown_line))]
fn push_line(out: &mut Vec<u8>, line: &[u8]) -> Result<(), AllocError>
    ensures { OnOk result (out.new.items ≡ out.old.items ++ shown_line line.now) }
{
    let mut rest = line;
    while let [b, behind @ ..] = rest {
        push_byte(out, *b)?;
        out.push(if behind.is_empty() { b'\n' } else { b' ' })?;
        rest = behind;
    }
    Ok(())
}

// The bytes, line by line.
pub fn push_bytes(out: &mut Vec<u8>, bytes: &[u8]) -> Result<(), AllocError>
    ensures text { OnOk result (out.new.items ≡ out.old.items ++ shown_bytes bytes.now) }
    ensures back { lines_bytes (lines (shown_bytes bytes.now)) ≡ Some bytes.now }
{
    for line in bytes.chunks(LINE) {
        push_line(out, line)?;
    }
    Ok(())
}

// A byte that stands for itself in a name: text, and no backslash.
fn is_plain(b: u8) -> bool
    ensures { result ≡ plain b }
{
    matches!(b, b' '..=b'~') && b != b'\\'
}

// The byte, as `\xHH`.
#[tactic(auto, unfolding(crate::specs::Shown::escaped))]
fn push_escaped(out: &mut Vec<u8>, b: u8) -> Result<(), AllocError>
    ensures { OnOk result (out.new.items ≡ out.old.items ++ escaped b) }
{
    out.extend_from_slice(b"\\x")?;
    push_byte(out, b)
}

// One byte of a name.
#[tactic(auto, unfolding(crate::specs::Shown::shown_char))]
fn push_char(out: &mut Vec<u8>, b: u8) -> Result<(), AllocError>
    ensures { OnOk result (out.new.items ≡ out.old.items ++ shown_char b) }
{
    if is_plain(b) {
        out.push(b)?;
        Ok(())
    } else {
        push_escaped(out, b)
    }
}

// Bytes of a name, one behind the other.
#[tactic(auto, unfolding(crate::specs::Shown::shown_chars))]
fn push_chars(out: &mut Vec<u8>, bytes: &[u8]) -> Result<(), AllocError>
    ensures { OnOk result (out.new.items ≡ out.old.items ++ shown_chars bytes.now) }
{
    for b in bytes {
        push_char(out, *b)?;
    }
    Ok(())
}

// The first byte of a name.
#[tactic(auto, unfolding(crate::specs::Shown::shown_first))]
fn push_first(out: &mut Vec<u8>, b: u8) -> Result<(), AllocError>
    ensures { OnOk result (out.new.items ≡ out.old.items ++ shown_first b) }
{
    if b == b' ' {
        push_escaped(out, b)
    } else {
        push_char(out, b)
    }
}

// How many spaces the name ends with: a chain of its own, as those of `words`.
fn spaces_behind(name: &[u8]) -> usize
    ensures value { result ≡ suffix_len (nat_eq 32) name.now }
    ensures within { result ≤ length name.now }
{
    name.iter().rev().take_while(|b| **b == b' ').count()
}

// How many bytes of a name are printed.
#[tactic(auto, unfolding(crate::specs::Shown::shown_length))]
fn shown_len(name: &[u8]) -> usize
    requires { 0 < length name.now }
    ensures value { result ≡ shown_length name.now }
    ensures some { 0 < result }
    ensures within { result ≤ length name.now }
{
    (name.len() - spaces_behind(name)).max(1)
}

// The name without the blanks behind it, with `\xHH` for a byte that is not plain text, for a backslash, and for a blank in front.
pub fn push_name(out: &mut Vec<u8>, name: &Name) -> Result<(), AllocError>
    ensures text { OnOk result (out.new.items ≡ out.old.items ++ shown_name name.now.bytes) }
    ensures back { NameBack name.now.bytes }
{
    let end = shown_len(&name.bytes);
    push_first(out, name.bytes[0])?;
    push_chars(out, &name.bytes[1..end])
}
