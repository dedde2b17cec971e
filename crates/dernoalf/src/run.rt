// Commands over a disk, in memory alone or with an image file beside it.
use crate::failure::{Failure, OnFile};
use crate::image::Image;
use console::command::{Command, Question};
use console::script::Script;
use layout::disk::Disk;
use reader::read::read_file;
use session::answers::push_refused;
use session::session::Session;
use std::alloc::Global;
use std::fs;
use std::io::Write;
use update::answer::{Done, Refusal};
use update::write;

// How many bytes are printed at once.
const FULL: usize = 0x1_0000;

#[derive(Drop)]
pub struct Run {
    session: Session,
    image: Option<Image>,
    // What is still to be printed.
    out: Vec<u8>,
    // The writes of the last command.
    log: Vec<write::Write>,
}

impl Run {
    fn new(heap: Global, disk: Vec<u8>, image: Option<Image>) -> Run {
        Run {
            session: Session::new(disk),
            image,
            out: Vec::new(heap),
            log: Vec::new(heap),
        }
    }

    // Over a disk in memory, which has no blocks before `disk`.
    pub fn in_memory(rt: &HostRuntime) -> Run {
        let heap = rt.alloc();
        Run::new(heap, Vec::new(heap), None)
    }

    // Over the image file of this name.
    pub fn over_image(rt: &HostRuntime, path: String) -> Result<Run, Failure> {
        let (image, disk) = Image::open(rt, path)?;
        Ok(Run::new(rt.alloc(), disk, Some(image)))
    }

    // Obeys the command, and makes its writes on the image too.
    fn obey(&mut self, rt: &HostRuntime, command: &Command) -> Result<Done, Failure> {
        if let Command::Disk { line, .. } = command
            && self.image.is_some()
            && !self.session.disk().is_empty()
        {
            // An image that is there is not made anew.
            push_refused(&mut self.out, Refusal::Unreadable, *line)?;
            return Ok(Done::Refused(Refusal::Unreadable));
        }
        self.log.clear();
        let printed = self.out.len();
        let answer = self.session.obey(command, &mut self.out, &mut self.log)?;
        // What the image doesn't have is not said to be done.
        self.keep(rt, command)
            .inspect_err(|_| self.out.truncate(printed))?;
        Ok(answer)
    }

    // Makes on the image what the command made in memory.
    fn keep(&mut self, rt: &HostRuntime, command: &Command) -> Result<(), Failure> {
        let Some(image) = &mut self.image else {
            return Ok(());
        };
        if let Command::Disk { .. } = command {
            if self.session.disk().is_empty() {
                return Ok(());
            }
            return image.make(rt, self.session.disk());
        }
        image.write(rt, self.log.as_slice())
    }

    fn print(&mut self, rt: &HostRuntime) -> Result<(), Failure> {
        rt.stdout()
            .write_all(self.out.as_slice())
            .map_err(Failure::Stream)?;
        self.out.clear();
        Ok(())
    }

    // Every command of the text, whatever the ones before it answered.
    fn obey_all(&mut self, rt: &HostRuntime, text: &[u8]) -> Result<(), Failure> {
        let heap = rt.alloc();
        let mut script = Script::new(text);
        while let Some(command) = script.next_command(heap)? {
            self.obey(rt, &command)?;
            if self.out.len() >= FULL {
                self.print(rt)?;
            }
        }
        Ok(())
    }

    // The commands of a text, and what they print, as far as it goes.
    pub fn script(&mut self, rt: &HostRuntime, text: &[u8]) -> Result<(), Failure> {
        let end = self.obey_all(rt, text);
        self.print(rt)?;
        end
    }

    // One command, which is done or not.
    fn single(&mut self, rt: &HostRuntime, command: &Command) -> Result<(), Failure> {
        match self.obey(rt, command)? {
            Done::Finished | Done::Read(_) => self.print(rt),
            answer => {
                let said = self.out.as_slice().to_vec(rt.alloc())?;
                Err(Failure::NotDone(answer, said))
            }
        }
    }

    // The command that the line spells, if it is one and no more.
    fn only(rt: &HostRuntime, line: &str) -> Result<Command, Failure> {
        let heap = rt.alloc();
        let mut script = Script::new(line.as_bytes());
        match (script.next_command(heap)?, script.next_command(heap)?) {
            (Some(command), None) => Ok(command),
            _ => Err(Failure::Usage),
        }
    }

    // The one command that the line spells.
    pub fn command(&mut self, rt: &HostRuntime, line: &str) -> Result<(), Failure> {
        let command = Run::only(rt, line)?;
        self.single(rt, &command)
    }

    // Puts the bytes of a file of the system.
    pub fn put(&mut self, rt: &HostRuntime, line: &str, file: &str) -> Result<(), Failure> {
        let content = fs::read(rt, file).on_file(file, rt.alloc())?;
        let command = match Run::only(rt, line)? {
            Command::Put(name, _) => Command::Put(name, content),
            other => other,
        };
        self.single(rt, &command)
    }

    // Writes the bytes of a file to a file of the system.
    pub fn read(&mut self, rt: &HostRuntime, line: &str, file: &str) -> Result<(), Failure> {
        let command = Run::only(rt, line)?;
        let Command::Ask(Question::Read(name)) = &command else {
            return self.single(rt, &command);
        };
        let mut room = [0; Disk::LONGEST];
        match read_file(self.session.disk(), &name.bytes, &mut room) {
            Done::Read(len) => fs::write(rt, file, &room[0..len]).on_file(file, rt.alloc()),
            // It says why.
            _ => self.single(rt, &command),
        }
    }
}
