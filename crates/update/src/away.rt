// Files taken away.
ghost use Rattle.std.specs.Prelude.{true};
ghost use Rattle.update.specs.Answers.{ask_refusal};
ghost use Rattle.update.specs.Requests.{away};
ghost use Rattle.update.specs.Promise.{AllOrNothing, FewWrites};
ghost use Rattle.update.specs.Said.{Says};

use crate::answer::Done;
use crate::request::{Request, perform};

// Takes the file away, if there is one, with power for so many writes: `Finished` if all were made, `Cut` if power failed before.
pub fn take_away(disk: &mut [u8], name: &[u8], lasts: u64) -> Done
    ensures says { Says (ask_refusal disk.old name.now) disk.old (away name.now lasts) true result disk.new }
    ensures whole { AllOrNothing disk.old (away name.now lasts) }
    ensures few { FewWrites disk.old (away name.now lasts) }
{
    let request = Request::Away { name, lasts };
    perform(disk, request)
}
