// Numbers of the command text, in decimal.
ghost use Rattle.std.specs.Prelude.{◌≡◌};
ghost use Rattle.console.specs.Numbers.{one_more, decimal};

// The number with one more digit behind it, where it is a digit and the number fits.
fn push_digit(n: u64, b: u8) -> Option<u64>
    ensures { result ≡ one_more n b }
{
    if !b.is_ascii_digit() {
        return None;
    }
    n.checked_mul(10)?.checked_add(u64::from(b - b'0'))
}

// The number that the word writes, where it is one or more digits and fits. (`parse` of std takes a `+` in front too.)
pub fn parse_decimal(word: &[u8]) -> Option<u64>
    ensures { result ≡ decimal word.now }
{
    if word.is_empty() {
        return None;
    }
    let mut n = 0;
    for b in word {
        n = push_digit(n, *b)?;
    }
    Some(n)
}
