// What is printed of an answer.
ghost use Rattle.std.specs.Prelude.{◌≡◌, ◌++◌, OnOk};
ghost use Rattle.session.specs.Printed.{refused_line, answer_line};

use console::show::push_number;
use std::alloc::AllocError;
use update::answer::{Done, Refusal};

// The number of the refusal, and the place. Piece by piece, as the lines of a listing: `format!` would take memory for each line, and `write!` twice the time.
pub fn push_refused(out: &mut Vec<u8>, refusal: Refusal, place: usize) -> Result<(), AllocError>
    ensures { OnOk result (out.new.items ≡ out.old.items ++ refused_line refusal place) }
{
    out.extend_from_slice(b"refused ")?;
    push_number(out, refusal.number() as u64)?;
    out.extend_from_slice(b" at ")?;
    push_number(out, place as u64)?;
    out.extend_from_slice(b"\n")
}

// The word for what came of a request; a refusal, with its place.
pub fn push_answer(out: &mut Vec<u8>, answer: Done, place: usize) -> Result<(), AllocError>
    ensures { OnOk result (out.new.items ≡ out.old.items ++ answer_line answer place) }
{
    match answer {
        Done::Finished => out.extend_from_slice(b"done\n"),
        Done::Cut => out.extend_from_slice(b"cut\n"),
        Done::Full => out.extend_from_slice(b"full\n"),
        Done::Refused(refusal) => push_refused(out, refusal, place),
        // Answers to a read, which no request that writes gives.
        Done::Read(_) | Done::Absent | Done::Short(_) => out.extend_from_slice(b"none\n"),
    }
}
