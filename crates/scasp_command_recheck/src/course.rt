//! Answers under one program after another, each in a file.
ghost use Rattle.std.specs.Prelude.{◌≡◌, ◌≤◌, ◌+◌, ◌&&◌, All, List, IfOk, OnOk, IsErrOf, map};
ghost use Rattle.std.specs.List.{list_all};
ghost use Rattle.scasp_syntax.specs.declared.program.Program.{Program as ThisProgram};
ghost use Rattle.scasp_answers.specs.Blocks.States.{Entry as ThisEntry};
ghost use Rattle.scasp_answers.specs.Files.View.{entry_of};
ghost use Rattle.scasp_io.specs.Bytes.{behind, TakesPrefix};
ghost use Rattle.scasp_io.specs.Counts.{Rose};
ghost use Rattle.scasp_command_check.specs.Outputs.{KeepsWorth};
ghost use Rattle.scasp_command_check.specs.Texts.{passes};
ghost use Rattle.scasp_command_inputs.specs.Inputs.{outside};
ghost use Rattle.scasp_command_inputs.specs.Reports.{Reports};
ghost use Rattle.scasp_command_recheck.specs.Courses as spec;
ghost use Rattle.scasp_command_recheck.specs.Texts.{first_text, next_text};
ghost use Rattle.scasp_command_recheck.specs.Views.{AreBlocks};

use crate::blocks::Blocks;
use scasp_answers::Entries;
use scasp_command_check::see_entries;
use scasp_command_inputs::{Status, answers_in_file, next_program_in_file, program_in_file, tell};
use scasp_command_words::Word;
use scasp_io::{Files, OutputErr, Sink, write_all};
use scasp_list::Memory;
use scasp_name::Names;
use scasp_syntax::Program;
use std::alloc::Global;

/// Where a recheck stands: behind the program of this number.
#[derive(Drop)]
struct Course {
    /// The blocks, under that program.
    blocks: Blocks,
    /// The names of all files that were read.
    names: Names,
    number: u64,
    /// Whether each block was accepted under each program.
    accepted: bool,
}

impl Course {
    /// Behind the first program, whose text is printed.
    fn begin<K: Sink>(
        alloc: Global,
        program: &Program,
        entries: Entries,
        names: Names,
        out: &mut K,
    ) -> Result<Course, OutputErr>
        ensures under_program { IfOk result (λ course. AreBlocks course.blocks program.now (map entry_of entries)) }
        ensures names { IfOk result (λ course. course.names ≡ names) }
        ensures number { IfOk result (λ course. course.number ≡ 1) }
        ensures accepted { IfOk result (λ course. course.accepted ≡ list_all (passes program.now) (map entry_of entries)) }
        ensures ok { OnOk result (K.taken out.new ≡ behind (K.taken out.old) (first_text program.now (map entry_of entries))) }
        ensures memory { IsErrOf result OutputErr.Memory → K.taken out.new ≡ K.taken out.old }
        ensures write { IsErrOf result OutputErr.Write → TakesPrefix (K.taken out.old) (K.taken out.new) (first_text program.now (map entry_of entries)) }
        ensures cause { IsErrOf result OutputErr.Write → Rose (K.faults out.old) (K.faults out.new) }
        ensures counts { K.faults out.old ≤ K.faults out.new }
    {
        let blocks = Blocks::open(alloc, program, entries)?;
        let text = blocks.text(alloc, 1, blocks.len())?;
        write_all(out, text.as_slice())?;
        Ok(Course {
            accepted: blocks.are_accepted(),
            blocks,
            names,
            number: 1,
        })
    }

    /// Behind the next program, whose text is printed.
    fn step<K: Sink>(
        self,
        alloc: Global,
        program: &Program,
        out: &mut K,
    ) -> Result<Course, OutputErr>
        ensures under_program { (p : ThisProgram) (entries : List ThisEntry) → AreBlocks self.blocks p entries → IfOk result (λ course. AreBlocks course.blocks program.now entries) }
        ensures names { IfOk result (λ course. course.names ≡ self.names) }
        ensures number { IfOk result (λ course. course.number ≡ self.number + 1) }
        ensures accepted { (p : ThisProgram) (entries : List ThisEntry) → AreBlocks self.blocks p entries → IfOk result (λ course. course.accepted ≡ (self.accepted && list_all (passes program.now) entries)) }
        ensures ok { (p : ThisProgram) (entries : List ThisEntry) → AreBlocks self.blocks p entries → OnOk result (K.taken out.new ≡ behind (K.taken out.old) (next_text (self.number + 1) p program.now entries)) }
        ensures memory { IsErrOf result OutputErr.Memory → K.taken out.new ≡ K.taken out.old }
        ensures write { (p : ThisProgram) (entries : List ThisEntry) → AreBlocks self.blocks p entries → IsErrOf result OutputErr.Write → TakesPrefix (K.taken out.old) (K.taken out.new) (next_text (self.number + 1) p program.now entries) }
        ensures cause { IsErrOf result OutputErr.Write → Rose (K.faults out.old) (K.faults out.new) }
        ensures counts { K.faults out.old ≤ K.faults out.new }
    {
        let Course {
            mut blocks,
            names,
            number,
            accepted,
        } = self;
        let number = number.checked_add(1).ok_or(Memory)?;
        let visited = blocks.update(program)?;
        let text = blocks.text(alloc, number, visited)?;
        write_all(out, text.as_slice())?;
        Ok(Course {
            accepted: accepted && blocks.are_accepted(),
            blocks,
            names,
            number,
        })
    }

    /// The status behind the last program.
    fn status(&self) -> Status
        ensures { result ≡ spec.course_status self.now.accepted }
    {
        if self.accepted {
            Status::Done
        } else {
            Status::Refused
        }
    }

    /// Goes on to the programs in these files. The recursion is as deep as there are files.
    fn go_on<F: Files, K: Sink>(
        self,
        alloc: Global,
        files: &[Word],
        disk: &mut F,
        out: &mut K,
    ) -> Status
        ensures { (p : ThisProgram) (entries : List ThisEntry) → AreBlocks self.blocks p entries
            → Reports (spec.Course (outside (F.told disk.old) (F.faults disk.old) (F.faults disk.new)) entries files.now self.number p self.names self.accepted) (K.taken out.old) (K.taken out.new) (K.faults out.old) (K.faults out.new) result }
    {
        let [file, more @ ..] = files else {
            return self.status();
        };
        let Course {
            blocks,
            names,
            number,
            accepted,
        } = self;
        let (program, names) = match next_program_in_file(alloc, file.as_str(), names, disk) {
            Ok(read) => read,
            Err(halt) => return tell(&halt, out),
        };
        let course = Course {
            blocks,
            names,
            number,
            accepted,
        };
        match course.step(alloc, &program, out) {
            Ok(course) => course.go_on(alloc, more, disk, out),
            Err(OutputErr::Write) => Status::Write,
            Err(OutputErr::Memory) => Status::Memory,
        }
    }
}

/// Checks the answers in a file under the programs in others, one after another: prints for each program its number, a line for
/// each block, and how many blocks its edit touches. The first program is read before the answers, each further one at its turn.
pub fn recheck_files<F: Files, K: Sink>(
    alloc: Global,
    answers: &str,
    files: &[Word],
    disk: &mut F,
    out: &mut K,
) -> Status
    ensures { Reports (spec.Rechecks (outside (F.told disk.old) (F.faults disk.old) (F.faults disk.new)) answers.now files.now) (K.taken out.old) (K.taken out.new) (K.faults out.old) (K.faults out.new) result }
{
    let [file, more @ ..] = files else {
        return Status::Done;
    };
    let (program, names) = match program_in_file(alloc, file.as_str(), disk) {
        Ok(read) => read,
        Err(halt) => return tell(&halt, out),
    };
    let (entries, names) = match answers_in_file(alloc, answers, names, disk) {
        Ok(read) => read,
        Err(halt) => return tell(&halt, out),
    };
    see_entries(&entries);
    match Course::begin(alloc, &program, entries, names, out) {
        Ok(course) => course.go_on(alloc, more, disk, out),
        Err(OutputErr::Write) => Status::Write,
        Err(OutputErr::Memory) => Status::Memory,
    }
}
