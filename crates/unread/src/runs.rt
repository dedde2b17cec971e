// The unread places of a disk, in runs.
ghost use Rattle.std.specs.Prelude.{◌≡◌, ◌-◌, ◌≤◌, length, not, MatchResult, IfOk, IfErr, Some, None};
ghost use Rattle.std.specs.Option.{option_map};
ghost use Rattle.fsck.specs.Sound.{first_fault};
ghost use Rattle.fsck.specs.Faults.{fault_of_place};
ghost use Rattle.fsck.specs.Faults as faults;
ghost use Rattle.unread.specs.Unread.{unread};
ghost use Rattle.unread.specs.Runs.{Ready, Until, Step, JustThese};
ghost use Rattle.unread.specs.Complete.{Complete};
ghost use Rattle.std.specs.Iterator.{at_most};

use crate::extent::unread_rest;
use fsck::fault::Fault;
use fsck::sound_disk::SoundDisk;
use std::ops::Range;

// Runs of unread places of a sound disk, in order, each as long as it can be.
#[derive(Drop)]
pub struct Runs<'a> {
    disk: SoundDisk<'a>,
    // Where to go on.
    at: usize,
    ghost ready: { Ready disk.bytes.now at },
}

impl<'a> Runs<'a> {
    // The runs of the disk, from its first place on.
    #[tactic(auto, using(crate::proofs::Completeness::complete, crate::proofs::Stepping::just_these))]
    pub fn of(disk: SoundDisk<'a>) -> Runs<'a>
        ensures disk { result.disk.bytes ≡ disk.entry.bytes }
        ensures at { result.at ≡ 0 }
        ensures covers { JustThese (unread disk.entry.bytes.now) }
        ensures complete { Complete disk.entry.bytes.now }
    {
        Runs { disk, at: 0 }
    }
}

// The runs of unread places of the disk, from its first on. A disk that isn't sound is refused with its first fault.
#[tactic(auto, using(crate::proofs::Completeness::complete, crate::proofs::Stepping::just_these))]
pub fn unread_runs(disk: &[u8]) -> Result<Runs<'_>, Fault>
    ensures answer { MatchResult result (λ runs. (first_fault disk.now ≡ None) × (runs.disk.bytes ≡ disk.entry) × (runs.at ≡ 0)) (λ fault. option_map fault_of_place (first_fault disk.now) ≡ Some fault) }
    ensures places { IfErr result (λ fault. first_fault disk.now ≡ Some (faults.place fault)) }
    ensures ready { IfOk result (λ runs. Ready runs.disk.bytes.now runs.at) }
    ensures covers { JustThese (unread disk.now) }
    ensures complete { Complete disk.now }
{
    Ok(Runs::of(SoundDisk::check(disk)?))
}

// The first place from `at` on that is unread, or the first that is read; or the disk's end.
fn next_place(disk: SoundDisk<'_>, at: usize, is_unread: bool) -> usize
    requires { at ≤ length disk.bytes.now }
    ensures { Until (unread disk.entry.bytes.now) (not is_unread) at result (length disk.entry.bytes.now) }
{
    let mut at = at;
    // No range and no chain: each step goes to the end of the entry or the block that has the place.
    while at < disk.bytes().len() {
        let rest = unread_rest(disk, at);
        let (from, to) = if is_unread {
            (at.max(rest.start), rest.end)
        } else {
            (at, rest.start)
        };
        if from < to {
            return from;
        }
        at = rest.end;
    }
    at
}

impl<'a> Iterator for Runs<'a> {
    type Item = Range<usize>;

    ghost next_gives = { λ s r t. (t.disk.bytes ≡ s.disk.bytes) × Step (unread s.disk.bytes.now) s.at r t.at };

    ghost remaining = { λ s. at_most (length s.disk.bytes.now - s.at) };

    fn next(&mut self) -> Option<Range<usize>> {
        let start = next_place(self.disk, self.at, true);
        if start == self.disk.bytes().len() {
            return None;
        }
        let end = next_place(self.disk, start, false);
        self.at = end;
        Some(start..end)
    }
}
