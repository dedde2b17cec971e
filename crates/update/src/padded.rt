// Bytes with zeros behind their end.
ghost use Rattle.std.specs.Prelude.{◌≡◌};
ghost use Rattle.update.specs.Putting.{padded};

// As many of the bytes as there is room for, with zeros behind them.
pub(crate) fn padded<const N: usize>(bytes: &[u8]) -> [u8; N]
    ensures { result ≡ padded N bytes.now }
{
    let mut all = [0; N];
    let n = bytes.len().min(N);
    all[..n].copy_from_slice(&bytes[..n]);
    all
}
