// A disk in memory, and commands obeyed on it.
ghost use Rattle.std.specs.Prelude.{◌≡◌, ℕ, [], ◌++◌, IfOk, if◌then◌else◌, None, Option, OnOk};
ghost use Rattle.fsck.specs.Sound.{first_fault};
ghost use Rattle.update.specs.declared.answer.Done.TheVariants.{Finished, Refused};
ghost use Rattle.update.specs.declared.answer.Refusal.TheVariants.{Unsound};
ghost use Rattle.update.specs.Asking.{asked};
ghost use Rattle.console.specs.Commands.{said, said_of, bad};
ghost use Rattle.session.specs.Kept.{Kept, StoppedAt};
ghost use Rattle.session.specs.Obeyed.{lasting, uses_power, judging, size_fits, new_disk, made_writes, asked_of, disk_after, power_after, writes_of};
ghost use Rattle.session.specs.Printed.{refused_line};
ghost use Rattle.session.specs.Prints.{RequestPrints, Shows, ShowsIf, Prints, Behind};
ghost use Rattle.session.specs.Answered.{RequestAnswers, AnswersOf, AnswersIf, Answers};

use crate::answers::{push_answer, push_refused};
use crate::listing::{push_entry, push_file, push_files, push_map, push_unread};
use console::command::{Command, Question};
use console::verb::Verb;
use fsck::fault::Fault;
use fsck::judge::first_fault;
use fsck::sound_disk::SoundDisk;
use layout::disk::Disk;
use layout::name::Name;
use std::alloc::AllocError;
use update::answer::{Done, Refusal};
use update::plan::Plan;
use update::request::{Request, perform};
use update::write::Write;

// The disk, and for how many writes power lasts in the next request that writes, unless for all.
#[derive(Drop)]
pub struct Session {
    disk: Vec<u8>,
    power: Option<u64>,
}

// Whether the line begins with a command that writes, which uses up the power.
fn uses_power(command: &Command) -> bool
    ensures { result ≡ uses_power (said command.now) }
{
    match command {
        Command::Put(..) | Command::Away(_) => true,
        Command::Bad { verb, .. } => matches!(verb, Some(Verb::Put | Verb::Away)),
        _ => false,
    }
}

// Whether the disk is judged before a line that begins with this word, or with none, is looked at.
fn is_judged(verb: Option<Verb>) -> bool
    ensures { result ≡ judging verb }
{
    !matches!(verb, None | Some(Verb::Disk | Verb::Power))
}

// Puts the writes that the request will make behind the others.
fn log_writes(disk: &[u8], request: Request<'_>, log: &mut Vec<Write>) -> Result<(), AllocError>
    ensures { OnOk result (log.new.items ≡ log.old.items ++ made_writes disk.now (asked request.entry)) }
{
    let Ok(plan) = Plan::of(disk, request) else {
        return Ok(());
    };
    log.extend(plan.writes().take(request.lasts() as usize))
}

// Prints the refusal, and answers it. Why and where are apart, as in `Command::Bad` and in the definitions.
fn refuse(out: &mut Vec<u8>, why: Refusal, place: usize) -> Result<Done, AllocError>
    ensures text { OnOk result (out.new.items ≡ out.old.items ++ refused_line why place) }
    ensures answer { IfOk result (λ done. done ≡ Refused why) }
{
    push_refused(out, why, place)?;
    Ok(Done::Refused(why))
}

// Prints what is asked about the disk, and answers it.
fn show(disk: SoundDisk<'_>, question: Question, out: &mut Vec<u8>) -> Result<Done, AllocError>
    ensures text { OnOk result ((p : Option ℕ) → Behind out.old.items out.new.items (Shows disk.entry.bytes.now p (said_of question))) }
    ensures answer { IfOk result (λ done. (p : Option ℕ) → AnswersOf disk.entry.bytes.now p (said_of question) done) }
{
    match question {
        Question::Read(name) => return push_file(out, disk, &name),
        Question::Entry(name) => return push_entry(out, disk, &name),
        Question::List => push_files(out, disk)?,
        Question::Check => out.extend_from_slice(b"sound\n")?,
        Question::Unread => push_unread(out, disk)?,
        Question::Map => push_map(out, disk)?,
    }
    Ok(Done::Finished)
}

// The same of a disk that is judged first: where it isn't sound, it is refused for that.
fn show_judged(disk: &[u8], question: Question, out: &mut Vec<u8>) -> Result<Done, AllocError>
    ensures text { OnOk result ((p : Option ℕ) → Behind out.old.items out.new.items (Prints disk.now p (said_of question))) }
    ensures answer { IfOk result (λ done. (p : Option ℕ) → Answers disk.now p (said_of question) done) }
{
    match SoundDisk::check(disk) {
        Ok(disk) => show(disk, question, out),
        Err(fault) => refuse(out, Refusal::Unsound, fault.place()),
    }
}

// Refuses a line that can't be obeyed: for the disk, where it is judged first and isn't sound, or else for this reason.
fn refuse_line(
    disk: &[u8],
    verb: Option<Verb>,
    why: Refusal,
    place: usize,
    out: &mut Vec<u8>,
) -> Result<Done, AllocError>
    ensures text { OnOk result ((p : Option ℕ) → Behind out.old.items out.new.items (Prints disk.now p (bad verb why place))) }
    ensures answer { IfOk result (λ done. (p : Option ℕ) → Answers disk.now p (bad verb why place) done) }
{
    if is_judged(verb)
        && let Some(fault) = first_fault(disk)
    {
        return refuse(out, Refusal::Unsound, fault.place());
    }
    refuse(out, why, place)
}

impl Session {
    // The session of a disk in memory.
    pub fn new(disk: Vec<u8>) -> Session
        ensures { (result.disk ≡ disk) × (result.power ≡ None) }
    {
        Session { disk, power: None }
    }

    pub fn disk(&self) -> &[u8]
        ensures { result.now ≡ self.now.disk.items }
    {
        self.disk.as_slice()
    }

    // For how many writes power lasts, of which nothing is left if the command uses it up.
    fn take_power(&mut self, command: &Command) -> u64
        ensures lasts { result ≡ lasting self.old.power }
        ensures left { self.new.power ≡ (if uses_power (said command.now) then None else self.old.power) }
        ensures disk { self.new.disk ≡ self.old.disk }
    {
        let lasts = self.power.unwrap_or(u64::MAX);
        if uses_power(command) {
            self.power = None;
        }
        lasts
    }

    // A new disk of zeros, in the place of the one that was there, if a disk may have so many blocks; else it is refused.
    fn make_disk(&mut self, blocks: u64, out: &mut Vec<u8>) -> Result<Done, AllocError>
        ensures disk { OnOk result (self.new.disk.items ≡ new_disk self.old.disk.items blocks) }
        ensures power { self.new.power ≡ self.old.power }
        ensures out { OnOk result (Behind out.old.items out.new.items (λ t. t ≡ (if size_fits blocks then [] else refused_line Unsound 16))) }
        ensures answer { IfOk result (λ done. done ≡ (if size_fits blocks then Finished else Refused Unsound)) }
    {
        if !(Disk::LEAST as u64..=Disk::MOST as u64).contains(&blocks) {
            return refuse(out, Refusal::Unsound, Fault::Size.place());
        }
        let len = blocks as usize * Disk::BLOCK;
        self.disk.clear();
        self.disk.resize(len, 0)?;
        Ok(Done::Finished)
    }

    // Performs the request, prints what came of it, and answers that: where the disk isn't sound, that it is refused for its first fault; a refusal for another reason is printed with this place. The writes that it made are put behind the others.
    fn ask(
        &mut self,
        request: Request<'_>,
        place: usize,
        out: &mut Vec<u8>,
        log: &mut Vec<Write>,
    ) -> Result<Done, AllocError>
        ensures disk { OnOk result (self.new.disk.items ≡ asked_of self.old.disk.items (asked request.entry)) }
        ensures power { self.new.power ≡ self.old.power }
        ensures log { OnOk result (log.new.items ≡ log.old.items ++ made_writes self.old.disk.items (asked request.entry)) }
        ensures out { OnOk result (Behind out.old.items out.new.items (λ t. ShowsIf (first_fault self.old.disk.items) t (RequestPrints self.old.disk.items (asked request.entry) place t))) }
        ensures answer { IfOk result (λ done. AnswersIf (first_fault self.old.disk.items) done (RequestAnswers self.old.disk.items (asked request.entry) done)) }
    {
        if let Some(fault) = first_fault(self.disk.as_slice()) {
            return refuse(out, Refusal::Unsound, fault.place());
        }
        log_writes(self.disk.as_slice(), request, log)?;
        let answer = perform(self.disk.as_mut_slice(), request);
        push_answer(out, answer, place)?;
        Ok(answer)
    }

    // Obeys the command: prints what it asks for behind what was printed before, puts the writes that it made behind the others, and answers what came of it.
    pub fn obey(
        &mut self,
        command: &Command,
        out: &mut Vec<u8>,
        log: &mut Vec<Write>,
    ) -> Result<Done, AllocError>
        ensures disk { OnOk result (self.new.disk.items ≡ disk_after self.old.disk.items self.old.power (said command.now)) }
        ensures power { OnOk result (self.new.power ≡ power_after self.old.power (said command.now)) }
        ensures log { OnOk result (log.new.items ≡ log.old.items ++ writes_of self.old.disk.items self.old.power (said command.now)) }
        ensures out { OnOk result (Behind out.old.items out.new.items (Prints self.old.disk.items self.old.power (said command.now))) }
        ensures stopped { OnOk result (StoppedAt (said command.now) self.old.disk.items (writes_of self.old.disk.items self.old.power (said command.now)) self.new.disk.items) }
        ensures promise { OnOk result (Kept self.old.disk.items self.old.power (said command.now) self.new.disk.items) }
        ensures answer { IfOk result (λ done. Answers self.old.disk.items self.old.power (said command.now) done) }
    {
        let lasts = self.take_power(command);
        match command {
            Command::Disk { blocks, .. } => self.make_disk(*blocks, out),
            Command::Power(writes) => {
                self.power = Some(*writes);
                Ok(Done::Finished)
            }
            Command::Put(name, content) => {
                let content = content.as_slice();
                let request = Request::Put {
                    name: &name.bytes,
                    content,
                    lasts,
                };
                self.ask(request, content.len(), out, log)
            }
            Command::Away(name) => {
                let request = Request::Away {
                    name: &name.bytes,
                    lasts,
                };
                self.ask(request, Name::SIZE, out, log)
            }
            Command::Ask(question) => show_judged(self.disk.as_slice(), *question, out),
            Command::Bad { verb, why, place } => {
                refuse_line(self.disk.as_slice(), *verb, *why, *place, out)
            }
        }
    }
}
