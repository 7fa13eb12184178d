ghost use Rattle.std.specs.Prelude.{◌≡◌, ◌≢◌, ◌⊎◌, IfSome, IsTrue};
ghost use Rattle.rf_world.specs.Fault.{Rose, next_count};
ghost use Rattle.rf_cli.specs.Acting.{Acts, run_state};
ghost use Rattle.rf_cli.specs.Put.{Puts, bad_words_line, not_yet_line, read_fault_line, sink_state};
ghost use Rattle.rf_cli.specs.Command.{AreBadWords, IsRules, built_in, command_seen};
ghost use Rattle.rf_cli.specs.RunEnd.{ApplyEnd, RunEnd};
ghost use Rattle.rf_cli.specs.WholeRun.{CountsAreSame, HasInput, HasNoForm, IsBadRules, IsChanged, IsExact, IsFault, IsPrinted, IsRefused, IsTooLarge, MayHaveWritten, StandsWhole, TouchesOneFile};

use crate::Status;
use crate::command::{ApplyWords, Command, parse};
use crate::decide::{Decision, decide};
use crate::put::{put, put_write_fault};
use crate::rule_files::rules;
use rf_engine::FirstPath;
use rf_text::Bytes;
use rf_world::{Sink, World, WorldErr};
use std::alloc::Global;

/// Runs the command that `words` are, and says how it ended.
///
/// `apply SRC LIB OUT REQFILE` reads the request at REQFILE, with the empty root, then lists SRC and reads its one Java
/// file. The words are read first, a LIB other than `-` is answered next, then come the request, the number of files
/// and the file. Then the changed file is written under OUT, and last the lines of the answer are put in one call.
///
/// `rules FILE` reads the rule file at FILE, with the empty root, and puts its plain print, or what is wrong with it.
pub fn run<W: World, S: Sink>(alloc: Global, words: &[Bytes], world: &mut W, out: &mut S) -> Status
    // How it ends: the cause, what is written, and the one line that is put, whole or a front of it.
    ensures ends { RunEnd words.now
        (run_state (W.told world.old) (W.read_faults world.old) (W.write_faults world.old)
        (W.honest world.old)
        (sink_state (S.told out.old) (S.faults out.old) (S.puts out.old)))
        (run_state (W.told world.new) (W.read_faults world.new) (W.write_faults world.new)
        (W.honest world.new)
        (sink_state (S.told out.new) (S.faults out.new) (S.puts out.new))) result }

    // When each status comes, and what is put and written then.
    ensures ok { result ≡ Status.Ok → IfSome (W.told world.old)
        (λ files. IsChanged words.now files (W.told world.new) (S.told out.old) (S.told out.new)
        ⊎ IsPrinted words.now files (W.told world.new) (S.told out.old) (S.told out.new)) }
    ensures refused { result ≡ Status.Refused → IfSome (W.told world.old)
        (λ files. IsRefused words.now files (S.told out.old) (S.told out.new)) }
    ensures bad_words { result ≡ Status.BadWords → AreBadWords words.now }
    ensures bad_words_put { result ≡ Status.BadWords
        → Puts bad_words_line (S.told out.old) (S.told out.new) }
    ensures bad_rules { result ≡ Status.BadRules → IfSome (W.told world.old)
        (λ files. IsBadRules words.now files (S.told out.old) (S.told out.new)) }
    ensures too_large { result ≡ Status.TooLarge → IfSome (W.told world.old)
        (λ files. IsTooLarge words.now files (S.told out.old) (S.told out.new)) }
    ensures not_yet { result ≡ Status.NotYet → IfSome (W.told world.old)
        (λ files. HasNoForm words.now files ⊎ IsRules words.now built_in) }
    ensures not_yet_put { result ≡ Status.NotYet
        → Puts not_yet_line (S.told out.old) (S.told out.new) }
    ensures read_fault { result ≡ Status.ReadFault
        → Rose (W.read_faults world.old) (W.read_faults world.new) }
    ensures read_fault_put { result ≡ Status.ReadFault
        → Puts read_fault_line (S.told out.old) (S.told out.new) }
    ensures write_fault { result ≡ Status.WriteFault
        → Rose (W.write_faults world.old) (W.write_faults world.new)
        ⊎ Rose (S.faults out.old) (S.faults out.new) }
    ensures write_fault_whole { result ≡ Status.WriteFault
        → (Rose (W.write_faults world.old) (W.write_faults world.new) → ⊥)
        → IfSome (W.told world.old) (λ files. StandsWhole words.now files (W.told world.new)
        (W.read_faults world.old) (W.read_faults world.new)) }

    // And that each comes whenever its cause holds and no call failed.
    ensures exact { IfSome (W.told world.old) (λ files. IsExact words.now files result) }

    // What stays as it was.
    ensures unchanged { MayHaveWritten result ⊎ (W.told world.new ≡ W.told world.old) }
    ensures touched { IfSome (W.told world.old)
        (λ files. TouchesOneFile words.now files (W.told world.new)) }
    ensures counts { IsFault result
        ⊎ CountsAreSame (W.read_faults world.old) (W.write_faults world.old) (S.faults out.old)
        (W.read_faults world.new) (W.write_faults world.new) (S.faults out.new) }
    ensures honest { IsTrue (W.honest world.old)
        → IfSome (W.told world.old) (HasInput words.now)
        → (result ≢ Status.ReadFault) × (W.read_faults world.new ≡ W.read_faults world.old) }

    // At most one line is put, and exactly one where memory is not wanted.
    ensures puts { (S.puts out.new ≡ next_count (S.puts out.old))
        ⊎ ((result ≡ Status.Memory) × (S.puts out.new ≡ S.puts out.old)) }
{
    go(alloc, words, world, out)
}

/// The body of `run`.
fn go<W: World, S: Sink>(alloc: Global, words: &[Bytes], world: &mut W, out: &mut S) -> Status
    ensures { RunEnd words.now
        (run_state (W.told world.old) (W.read_faults world.old) (W.write_faults world.old)
        (W.honest world.old)
        (sink_state (S.told out.old) (S.faults out.old) (S.puts out.old)))
        (run_state (W.told world.new) (W.read_faults world.new) (W.write_faults world.new)
        (W.honest world.new)
        (sink_state (S.told out.new) (S.faults out.new) (S.puts out.new))) result }
{
    match parse(words) {
        None => put(alloc, out, b"bad words\n", Status::BadWords),
        Some(Command::Apply(command)) => apply(alloc, &command, world, out),
        Some(Command::Rules(file)) => rules(alloc, file, world, out),
    }
}

/// Runs `apply`.
fn apply<W: World, S: Sink>(
    alloc: Global,
    command: &ApplyWords<'_>,
    world: &mut W,
    out: &mut S,
) -> Status
    ensures { ApplyEnd (command_seen command.now)
        (run_state (W.told world.old) (W.read_faults world.old) (W.write_faults world.old)
        (W.honest world.old)
        (sink_state (S.told out.old) (S.faults out.old) (S.puts out.old)))
        (run_state (W.told world.new) (W.read_faults world.new) (W.write_faults world.new)
        (W.honest world.new)
        (sink_state (S.told out.new) (S.faults out.new) (S.puts out.new))) result }
{
    match decide(alloc, command, world) {
        Ok(decision) => act(alloc, command, decision, world, out),
        Err(WorldErr::Failed) => put(alloc, out, b"read fault\n", Status::ReadFault),
        Err(WorldErr::Memory) => Status::Memory,
    }
}

/// Writes and puts what was decided.
fn act<W: World, S: Sink>(
    alloc: Global,
    command: &ApplyWords<'_>,
    decision: Decision,
    world: &mut W,
    out: &mut S,
) -> Status
    ensures acts { Acts command.now.out.now decision.path decision.answer
        (run_state (W.told world.old) (W.read_faults world.old) (W.write_faults world.old)
        (W.honest world.old)
        (sink_state (S.told out.old) (S.faults out.old) (S.puts out.old)))
        (run_state (W.told world.new) (W.read_faults world.new) (W.write_faults world.new)
        (W.honest world.new)
        (sink_state (S.told out.new) (S.faults out.new) (S.puts out.new))) result }
    ensures same_reads { W.read_faults world.new ≡ W.read_faults world.old }
{
    let Decision { path, answer } = decision;
    match answer {
        FirstPath::NotYet => put(alloc, out, b"not yet\n", Status::NotYet),
        FirstPath::Refused { report } => put(alloc, out, report.as_slice(), Status::Refused),
        FirstPath::Changed { bytes, report } => match world.write(
            alloc,
            command.out,
            path.as_slice(),
            bytes.as_slice(),
        ) {
            Ok(()) => put(alloc, out, report.as_slice(), Status::Ok),
            Err(WorldErr::Failed) => put_write_fault(alloc, out),
            Err(WorldErr::Memory) => Status::Memory,
        },
    }
}
