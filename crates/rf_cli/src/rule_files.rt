ghost use Rattle.std.specs.Prelude.{◌≡◌, [], IfOk, IfSome, IsErrOf, IsSome, IsTrue};
ghost use Rattle.rf_world.specs.Fault.{HasCause};
ghost use Rattle.rf_cli.specs.Acting.{run_state};
ghost use Rattle.rf_cli.specs.Put.{IsPut, sink_state};
ghost use Rattle.rf_cli.specs.RulesEnd.{IsRulesRight, RulesEnd, rules_status, rules_text};

use crate::Status;
use crate::put::put;
use rf_rules::{RulesAnswer, rules_answer};
use rf_world::{Sink, World, WorldErr};
use std::alloc::Global;

/// Reads the rule file, with the empty root, and decides what is to be put.
fn answered<W: World>(alloc: Global, file: &[u8], world: &mut W) -> Result<RulesAnswer, WorldErr>
    ensures right { IfOk result (λ answer.
        IfSome (W.told world.old) (λ files. IsRulesRight file.now files answer)) }
    ensures cause { HasCause WorldErr.Failed WorldErr.Memory
        (W.read_faults world.old) (W.read_faults world.new) result }
    ensures never { IsTrue (W.honest world.old)
        → IfSome (W.told world.old) (λ files. IsSome (files [] file.now))
        → IsErrOf result WorldErr.Failed → ⊥ }

    ensures same_files { W.told world.new ≡ W.told world.old }
    ensures same_write_faults { W.write_faults world.new ≡ W.write_faults world.old }
    ensures same_honest { W.honest world.new ≡ W.honest world.old }
{
    let bytes = world.read(alloc, b"", file)?;
    let answer = rules_answer(alloc, file, bytes.as_slice())?;
    Ok(answer)
}

/// Puts an answer, and gives its status.
fn put_answer<S: Sink>(alloc: Global, out: &mut S, answer: &RulesAnswer) -> Status
    ensures { IsPut (rules_status answer.now) (rules_text answer.now)
        (sink_state (S.told out.old) (S.faults out.old) (S.puts out.old))
        (sink_state (S.told out.new) (S.faults out.new) (S.puts out.new)) result }
{
    match answer {
        RulesAnswer::Printed(text) => put(alloc, out, text.as_slice(), Status::Ok),
        RulesAnswer::Bad(line) => put(alloc, out, line.as_slice(), Status::BadRules),
        RulesAnswer::TooLarge(line) => put(alloc, out, line.as_slice(), Status::TooLarge),
    }
}

/// Runs `rules FILE`.
pub(crate) fn rules<W: World, S: Sink>(
    alloc: Global,
    file: &[u8],
    world: &mut W,
    out: &mut S,
) -> Status
    ensures { RulesEnd file.now
        (run_state (W.told world.old) (W.read_faults world.old) (W.write_faults world.old)
        (W.honest world.old)
        (sink_state (S.told out.old) (S.faults out.old) (S.puts out.old)))
        (run_state (W.told world.new) (W.read_faults world.new) (W.write_faults world.new)
        (W.honest world.new)
        (sink_state (S.told out.new) (S.faults out.new) (S.puts out.new))) result }
{
    if file == b"-".as_slice() {
        return put(alloc, out, b"not yet\n", Status::NotYet);
    }
    match answered(alloc, file, world) {
        Ok(answer) => put_answer(alloc, out, &answer),
        Err(WorldErr::Failed) => put(alloc, out, b"read fault\n", Status::ReadFault),
        Err(WorldErr::Memory) => Status::Memory,
    }
}
