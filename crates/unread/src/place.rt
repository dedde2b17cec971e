// Whether a place is unread.
ghost use Rattle.std.specs.Prelude.{◌≡◌, true, Some, IfErr, IsTrue, ◌↔◌};
ghost use Rattle.fsck.specs.Sound.{sound, first_fault};
ghost use Rattle.fsck.specs.Faults as faults;
ghost use Rattle.unread.specs.Unread.{unread};
ghost use Rattle.unread.specs.Kinds.{Unread};
ghost use Rattle.unread.specs.Complete.{Complete};
ghost use Rattle.unread.specs.Answers.{answered};

use crate::extent::unread_rest;
use fsck::fault::Fault;
use fsck::sound_disk::SoundDisk;

// Whether the place is one of the disk's that the old machine doesn't read. A disk that isn't sound is refused with its first fault.
#[tactic(auto, using(crate::proofs::Completeness::complete, crate::proofs::Reach::unread_off_disk))]
pub fn is_unread(disk: &[u8], place: usize) -> Result<bool, Fault>
    ensures value { result ≡ answered disk.now (unread disk.now place) }
    ensures places { IfErr result (λ fault. first_fault disk.now ≡ Some (faults.place fault)) }
    ensures kinds { sound disk.now ≡ true → (IsTrue (unread disk.now place) ↔ Unread disk.now place) }
    ensures complete { Complete disk.now }
{
    let disk = SoundDisk::check(disk)?;
    if place >= disk.bytes().len() {
        return Ok(false);
    }
    let rest = unread_rest(disk, place);
    Ok(rest.start <= place)
}
