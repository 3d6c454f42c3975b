//! A script, read whole.

ghost use Rattle.std.specs.Prelude.{◌≡◌, ◌≤◌, ◌<◌, length, IfOk, IfErr, OnOk, IfSome};
ghost use Rattle.std.specs.Io.KnownBytes.{IsAtEnd};
ghost use Rattle.std.specs.Result.{IsErrOf};
ghost use Rattle.ipc_script.specs.Relations.Input.{IsReadFault, ReadsTooMuch};
ghost use Rattle.ipc_script.specs.Line.{longest_script};
ghost use Rattle.ipc_script.specs.declared.fault.ScriptFault.TheVariants.{TooLong};

use crate::fault::ScriptFault;
use std::alloc::Global;
use std::io::Read;

/// The most bytes of a script.
pub const LONGEST_SCRIPT: usize = 16777216;

/// All that the reader gives. A read that fails, an interrupted one too, is a fault.
pub fn read_script<R: Read>(alloc: Global, reader: &mut R) -> Result<Vec<u8>, ScriptFault>
    ensures whole { IfOk result (λ script.
        IfSome (R.remaining reader.old) (λ input. script.items ≡ input)) }
    ensures end { OnOk result (IsAtEnd (R.remaining reader.new)) }
    ensures bounded { IfOk result (λ script. length script.items ≤ longest_script) }
    ensures faults { IfErr result IsReadFault }
    ensures too_long { IsErrOf result TooLong →
        ReadsTooMuch (R.remaining reader.old) (R.remaining reader.new) }
{
    let mut script = Vec::new(alloc);
    let mut chunk = [0u8; 4096];
    for _ in 0..=LONGEST_SCRIPT {
        match reader.read(&mut chunk) {
            Ok(0) => return Ok(script),
            Ok(count) => script.extend_from_slice(&chunk[..count])?,
            Err(_) => return Err(ScriptFault::Input),
        }
        if script.len() > LONGEST_SCRIPT {
            return Err(ScriptFault::TooLong);
        }
    }
    Err(ScriptFault::TooLong)
}
