// Files put.
ghost use Rattle.update.specs.Answers.{put_refusal};
ghost use Rattle.update.specs.Putting.{room_for};
ghost use Rattle.update.specs.Requests.{put};
ghost use Rattle.update.specs.Promise.{AllOrNothing, FewWrites, RoomBack};
ghost use Rattle.update.specs.Room.{RoomCounted, PutFinished, EmptyFile};
ghost use Rattle.update.specs.Said.{Says};

use crate::answer::Done;
use crate::request::{Request, perform};

// Puts the file, with power for so many writes: `Finished` if all were made, `Cut` if power failed before the last, `Full` if there is no room.
pub fn put_file<'a>(disk: &mut [u8], name: &'a [u8], content: &'a [u8], lasts: u64) -> Done
    ensures says { Says (put_refusal disk.old name.now content.now) disk.old (put name.now content.now lasts) (room_for disk.old name.now content.now) result disk.new }
    ensures whole { AllOrNothing disk.old (put name.now content.now lasts) }
    ensures few { FewWrites disk.old (put name.now content.now lasts) }
    ensures back { RoomBack disk.old name.now content.now }
    ensures room { RoomCounted disk.old name.now content.now }
    ensures finished { PutFinished disk.old name.now content.now lasts }
    ensures empty { EmptyFile disk.old name.now }
{
    let request = Request::Put {
        name,
        content,
        lasts,
    };
    perform(disk, request)
}
