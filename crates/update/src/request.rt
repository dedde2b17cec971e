// Requests as values, performed one after the other.
ghost use Rattle.std.specs.Prelude.{◌≡◌, map, length, if◌then◌else◌, nat_le};
ghost use Rattle.update.specs.declared.answer.Done.TheVariants.{Finished, Cut};
ghost use Rattle.update.specs.Writes.{after_writes};
ghost use Rattle.update.specs.Asking.{asked, refusal, roomy};
ghost use Rattle.update.specs.Plans.{plan_writes, OnDisk};
ghost use Rattle.update.specs.Requests.{lasts};
ghost use Rattle.update.specs.Promise.{AllOrNothing, FewWrites, AsDone, AsDoneNext};
ghost use Rattle.update.specs.Said.{Says, AllSays};

use crate::answer::Done;
use crate::plan::Plan;
use crate::write::write_powered;

// What is asked of a disk. Each request has a name and says for itself for how many writes power lasts: the promise is said of requests that have all of it in them.
#[derive(Debug, Clone, Copy, PartialEq, Eq)]
pub enum Request<'a> {
    // The bytes are to be put under this name, with power for so many writes.
    Put {
        name: &'a [u8],
        content: &'a [u8],
        lasts: u64,
    },
    // The file of this name is to be taken away.
    Away {
        name: &'a [u8],
        lasts: u64,
    },
}

impl Request<'_> {
    // For how many writes power lasts.
    pub fn lasts(&self) -> u64
        ensures { result ≡ lasts (asked self.now) }
    {
        match *self {
            Request::Put { lasts, .. } | Request::Away { lasts, .. } => lasts,
        }
    }
}

// Makes the writes of the plan while power lasts.
fn carry_out(disk: &mut [u8], plan: &Plan<'_>, lasts: u64) -> Done
    requires { OnDisk disk.old (plan_writes plan.now) }
    ensures disk { disk.new ≡ after_writes lasts disk.old (plan_writes plan.now) }
    ensures answer { result ≡ (if nat_le (length (plan_writes plan.now)) lasts then Finished else Cut) }
{
    let mut power = lasts;
    for write in plan.writes() {
        if !write_powered(disk, &write, &mut power) {
            return Done::Cut;
        }
    }
    Done::Finished
}

// Performs the request, write by write: `Finished` if all were made, `Cut` if power failed before the last. It is refused with nothing changed, or `Full`.
pub fn perform(disk: &mut [u8], request: Request<'_>) -> Done
    ensures says { Says (refusal disk.old (asked request.entry)) disk.old (asked request.entry) (roomy disk.old (asked request.entry)) result disk.new }
    ensures promise { AsDoneNext disk.old (asked request.entry) disk.new }
    ensures whole { AllOrNothing disk.old (asked request.entry) }
    ensures few { FewWrites disk.old (asked request.entry) }
{
    match Plan::of(disk, request) {
        Ok(plan) => carry_out(disk, &plan, request.lasts()),
        Err(answer) => answer,
    }
}

// Performs the requests, whatever each of them answers. A disk that isn't sound is left as it is.
pub fn perform_all(disk: &mut [u8], requests: &[Request<'_>])
    ensures says { AllSays disk.old (map asked requests.now) disk.new }
    ensures promise { AsDone disk.old (map asked requests.now) disk.new }
{
    for request in requests {
        perform(disk, *request);
    }
}
