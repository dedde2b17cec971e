// The tests that a request on a name has to pass before it is looked at, in their order.
ghost use Rattle.std.specs.Prelude.{◌≡◌, Ok, Err, MatchResult};
ghost use Rattle.update.specs.Answers.{admitted};

use crate::answer::Refusal;
use fsck::sound_disk::SoundDisk;
use layout::name::Name;

// The sound disk and the name, if the disk is sound and the name eleven bytes; else the first reason to refuse.
pub fn admit<'a>(disk: &'a [u8], name: &[u8]) -> Result<(SoundDisk<'a>, Name), Refusal>
    ensures { MatchResult result (λ both. (both.0.bytes ≡ disk.entry) × (admitted disk.now name.now ≡ Ok both.1)) (λ refusal. admitted disk.now name.now ≡ Err refusal) }
{
    let disk = SoundDisk::check(disk)?;
    let name = Name::try_from(name)?;
    Ok((disk, name))
}
