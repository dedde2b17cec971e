// A file's name: eleven bytes, whatever they are.
ghost use Rattle.std.specs.Prelude.{◌≡◌, Some, None, MatchResult, length};
ghost use Rattle.layout.specs.Entries.{named};

#[derive(Clone, Copy, Debug, PartialEq, Eq)]
pub struct Name {
    pub bytes: [u8; Name::SIZE],
}

impl Name {
    pub const SIZE: usize = 11;
}

// So many bytes are no name.
#[derive(Clone, Copy, Debug, PartialEq, Eq)]
pub struct WrongLength {
    pub len: usize,
}

impl TryFrom<&[u8]> for Name {
    type Error = WrongLength;

    ghost try_from_gives = { λ bytes result. MatchResult result (λ name. named bytes.now ≡ Some name) (λ wrong. (named bytes.now ≡ None) × (wrong.len ≡ length bytes.now)) };

    // The name of these bytes, unless they are not eleven.
    fn try_from(bytes: &[u8]) -> Result<Name, WrongLength> {
        let wrong = WrongLength { len: bytes.len() };
        let bytes = <[u8; Name::SIZE]>::try_from(bytes).or(Err(wrong))?;
        Ok(Name { bytes })
    }
}
