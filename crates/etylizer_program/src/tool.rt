ghost use Rattle.std.specs.Prelude.{◌≡◌, ◌≢◌, ◌⊎◌, ◌↔◌, ◌<◌, ◌≤◌, None, IsSome, IsTrue, map, string_bytes};
ghost use Rattle.tool_io.specs.Outside.{IsHeld, Rose, Puts, PutsBeginning};
ghost use Rattle.etylizer_program.specs.Commands.{command_of};
ghost use Rattle.etylizer_program.specs.Report.{report_text};
ghost use Rattle.etylizer_program.specs.Tool.{AcceptsSafeText, Judges, JudgesFile, JudgesText, BreaksOff, BeginsFileReport, BeginsTextReport, HoldsNamedFile, NamesRightModule, NamesNoModule, NamesNotBuilt, NamesWrongNames, NamesWrongSpecs, verdict_status};
ghost use Rattle.etylizer_program.specs.Check.{fault_words, spec_fault_words};
ghost use Rattle.erl_scope_rules.specs.declared.fault.PlacedFault.{PlacedFault};
ghost use Rattle.typespecs_rules.specs.declared.fault.PlacedFault.{PlacedFault as TypePlacedFault};

use crate::command::{Command, command_of};
use crate::judge::judge;
use crate::report::{Verdict, report};
use std::alloc::Global;
use text_reader::TEXT_LIMIT;
use tool_io::{Files, LoadFault, PutFault, Sink};
use type_terms::{NoMemory, Text};

/// How the program ends.
pub type Status = u8;

/// A safe module.
const ACCEPTED: Status = 0;

/// A module in which a constraint fails.
const REFUSED: Status = 1;

const USAGE: Status = 2;

/// A text that is too long or no module of the profile, or whose module has wrong names, types or specs, or isn't flat.
const NOT_A_MODULE: Status = 3;

const READ_FAULT: Status = 4;

const WRITE_FAULT: Status = 5;

pub const NO_MEMORY: Status = 6;

/// Does what the words ask for, and writes one report.
///
/// The words don't have the program's own name. Refusals come in this order: the words, the load, the
/// text's length, its reading, its names, its specs, its types, the put. Want of memory may come in between.
pub fn run_tool<F: Files, O: Sink>(
    alloc: Global,
    words: &Vec<String>,
    files: &mut F,
    out: &mut O,
) -> Status
    // What is accepted is safe.
    ensures accepted { result ≡ 0 → AcceptsSafeText (map string_bytes words.now.items) (F.held files.old) (O.written out.old) (O.written out.new) }

    // A report tells the truth about the file.
    ensures judged { result < 4 → result ≢ 2 → Judges result (map string_bytes words.now.items) (F.held files.old) (O.written out.old) (O.written out.new) }

    // Where the files tell what they hold, and unless the files or the sink fail or memory runs out: a
    // flat module all of whose constraints hold is accepted; a text that is no module, or whose module
    // is nested too deep, is refused, `judged` says by which words; one whose names are wrong is refused
    // with the first fault at its place, and so is one whose names are right and whose types, records
    // or specs are wrong; and a readable module that isn't flat gets "not built yet".
    ensures complete { NamesRightModule (map string_bytes words.now.items) (F.held files.old) → (Rose (F.faults files.old) (F.faults files.new) → ⊥) → (Rose (O.faults out.old) (O.faults out.new) → ⊥) → (result ≡ 0) ⊎ (result ≡ 6) }
    ensures no_module { NamesNoModule (map string_bytes words.now.items) (F.held files.old) → (Rose (F.faults files.old) (F.faults files.new) → ⊥) → (Rose (O.faults out.old) (O.faults out.new) → ⊥) → (result ≡ 3) ⊎ (result ≡ 6) }
    ensures wrong_names { (fault : PlacedFault) → NamesWrongNames (map string_bytes words.now.items) (F.held files.old) fault → (Rose (F.faults files.old) (F.faults files.new) → ⊥) → (Rose (O.faults out.old) (O.faults out.new) → ⊥) → ((result ≡ 3) × Puts (O.written out.old) (O.written out.new) (report_text (Verdict.NotText fault.place (fault_words fault.fault)))) ⊎ (result ≡ 6) }
    ensures wrong_specs { (fault : TypePlacedFault) → NamesWrongSpecs (map string_bytes words.now.items) (F.held files.old) fault → (Rose (F.faults files.old) (F.faults files.new) → ⊥) → (Rose (O.faults out.old) (O.faults out.new) → ⊥) → ((result ≡ 3) × Puts (O.written out.old) (O.written out.new) (report_text (Verdict.NotText fault.place (spec_fault_words fault.fault)))) ⊎ (result ≡ 6) }
    ensures not_built { NamesNotBuilt (map string_bytes words.now.items) (F.held files.old) → (Rose (F.faults files.old) (F.faults files.new) → ⊥) → (Rose (O.faults out.old) (O.faults out.new) → ⊥) → ((result ≡ 3) × Puts (O.written out.old) (O.written out.new) (report_text Verdict.NotBuilt)) ⊎ (result ≡ 6) }

    // Words that are no command, and no others, are answered with the usage.
    ensures usage { result ≡ 2 → (command_of (map string_bytes words.now.items) ≡ None) × Puts (O.written out.old) (O.written out.new) (report_text Verdict.Usage) }
    ensures no_command { command_of (map string_bytes words.now.items) ≡ None → (result ≡ 2) ⊎ ((result ≡ 5) ⊎ (result ≡ 6)) }

    // A fault has its cause outside.
    ensures read_fault { result ≡ 4 → Rose (F.faults files.old) (F.faults files.new) }
    ensures write_fault { result ≡ 5 → Rose (O.faults out.old) (O.faults out.new) }
    ensures status { result ≤ 6 }

    // After a read fault nothing is written, after a write fault and want of memory nothing or a
    // beginning of a report that tells the truth.
    ensures nothing { result ≡ 4 → O.written out.new ≡ O.written out.old }
    ensures beginning { 4 < result → BreaksOff (map string_bytes words.now.items) (F.held files.old) (O.written out.old) (O.written out.new) }
    ensures told { IsSome (O.written out.new) ↔ IsSome (O.written out.old) }

    // Nothing is lost from the files, and counts of faults don't fall.
    ensures kept { F.held files.new ≡ F.held files.old }
    ensures file_count { F.faults files.old ≤ F.faults files.new }
    ensures sink_count { O.faults out.old ≤ O.faults out.new }
    ensures files_sure { F.sure files.new ≡ F.sure files.old }
    ensures sink_sure { O.sure out.new ≡ O.sure out.old }

    // Where the files and the sink are sure and the file is held, neither fails.
    ensures steady_files { IsTrue (F.sure files.old) → HoldsNamedFile (F.held files.old) (map string_bytes words.now.items) → F.faults files.new ≡ F.faults files.old }
    ensures steady_sink { IsTrue (O.sure out.old) → O.faults out.new ≡ O.faults out.old }
{
    match command_of(words) {
        None => put_verdict(alloc, &Verdict::Usage, out),
        Some(Command::Check) => check_file(alloc, words[1].as_bytes(), files, out),
    }
}

/// Loads a file and judges it.
fn check_file<F: Files, O: Sink>(alloc: Global, file: &[u8], files: &mut F, out: &mut O) -> Status
    ensures judged { result < 4 → JudgesFile result file.now (F.held files.old) (O.written out.old) (O.written out.new) }
    ensures no_usage { result ≢ 2 }
    ensures read_fault { result ≡ 4 → Rose (F.faults files.old) (F.faults files.new) }
    ensures write_fault { result ≡ 5 → Rose (O.faults out.old) (O.faults out.new) }
    ensures status { result ≤ 6 }
    ensures nothing { result ≡ 4 → O.written out.new ≡ O.written out.old }
    ensures beginning { 4 < result → (O.written out.new ≡ O.written out.old) ⊎ BeginsFileReport file.now (F.held files.old) (O.written out.old) (O.written out.new) }
    ensures told { IsSome (O.written out.new) ↔ IsSome (O.written out.old) }
    ensures kept { F.held files.new ≡ F.held files.old }
    ensures file_count { F.faults files.old ≤ F.faults files.new }
    ensures sink_count { O.faults out.old ≤ O.faults out.new }
    ensures files_sure { F.sure files.new ≡ F.sure files.old }
    ensures sink_sure { O.sure out.new ≡ O.sure out.old }
    ensures steady_files { IsTrue (F.sure files.old) → IsHeld (F.held files.old) file.now → F.faults files.new ≡ F.faults files.old }
    ensures steady_sink { IsTrue (O.sure out.old) → O.faults out.new ≡ O.faults out.old }
{
    let Ok(name) = Text::from_slice(alloc, file) else {
        return NO_MEMORY;
    };
    match files.load(alloc, &name, TEXT_LIMIT) {
        Ok(text) => judge_text(alloc, text.as_slice(), out),
        Err(LoadFault::NoMemory) => NO_MEMORY,
        Err(LoadFault::Failed) => READ_FAULT,
    }
}

/// Judges a text and writes the report.
fn judge_text<O: Sink>(alloc: Global, text: &[u8], out: &mut O) -> Status
    ensures judged { result < 4 → JudgesText result text.now (O.written out.old) (O.written out.new) }
    ensures no_usage { result ≢ 2 }
    ensures no_read_fault { result ≢ 4 }
    ensures write_fault { result ≡ 5 → Rose (O.faults out.old) (O.faults out.new) }
    ensures status { result ≤ 6 }
    ensures beginning { 4 < result → (O.written out.new ≡ O.written out.old) ⊎ BeginsTextReport text.now (O.written out.old) (O.written out.new) }
    ensures told { IsSome (O.written out.new) ↔ IsSome (O.written out.old) }
    ensures sink_count { O.faults out.old ≤ O.faults out.new }
    ensures sink_sure { O.sure out.new ≡ O.sure out.old }
    ensures steady_sink { IsTrue (O.sure out.old) → O.faults out.new ≡ O.faults out.old }
{
    match judge(alloc, text) {
        Ok(verdict) => put_verdict(alloc, &verdict, out),
        Err(NoMemory) => NO_MEMORY,
    }
}

/// Writes the report of a verdict.
fn put_verdict<O: Sink>(alloc: Global, verdict: &Verdict, out: &mut O) -> Status
    ensures whole { result < 4 → (result ≡ verdict_status verdict.now) × Puts (O.written out.old) (O.written out.new) (report_text verdict.now) }
    ensures no_read_fault { result ≢ 4 }
    ensures write_fault { result ≡ 5 → Rose (O.faults out.old) (O.faults out.new) }
    ensures status { result ≤ 6 }
    ensures beginning { 4 < result → PutsBeginning (O.written out.old) (O.written out.new) (report_text verdict.now) }
    ensures told { IsSome (O.written out.new) ↔ IsSome (O.written out.old) }
    ensures sink_count { O.faults out.old ≤ O.faults out.new }
    ensures sink_sure { O.sure out.new ≡ O.sure out.old }
    ensures steady_sink { IsTrue (O.sure out.old) → O.faults out.new ≡ O.faults out.old }
{
    let Ok(text) = report(alloc, verdict) else {
        return NO_MEMORY;
    };
    match out.put(&text) {
        Ok(()) => status_of(verdict),
        Err(PutFault::NoMemory) => NO_MEMORY,
        Err(PutFault::Failed) => WRITE_FAULT,
    }
}

fn status_of(verdict: &Verdict) -> Status
    ensures value { result ≡ verdict_status verdict.now }
    ensures small { result < 4 }
{
    match verdict {
        Verdict::Accepted { .. } => ACCEPTED,
        Verdict::Failed { .. } => REFUSED,
        Verdict::Usage => USAGE,
        Verdict::NotText { .. } => NOT_A_MODULE,
        Verdict::NotUtf8 { .. } => NOT_A_MODULE,
        Verdict::TooLong => NOT_A_MODULE,
        Verdict::NotBuilt => NOT_A_MODULE,
    }
}
