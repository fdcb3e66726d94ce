//! Bytes written whole.

ghost use Rattle.std.specs.Prelude.{◌≡◌, ◌+◌, ◌^◌, ◌<◌, length, IfOk, OnOk, IfErr};
ghost use Rattle.std.specs.Io.KnownBytes.{Appends};
ghost use Rattle.graphql_names.specs.Device.{device_inner, device_failed};
ghost use Rattle.checker_calls.specs.Parts.{parts_bytes, AreSound};
ghost use Rattle.checker_calls.specs.ReadFaults.{IsPutFault, IsPutFaultAfter};

use crate::parts::Parts;
use crate::run_fault::RunFault;
use graphql_names::Device;
use std::io::Write;

/// Writes the bytes. If the writer fails or takes nothing, the fault says how many bytes it took.
pub fn put<W: Write>(out: &mut Device<W>, parts: &Parts) -> Result<(), RunFault>
    requires { AreSound parts.now }
    ensures whole { OnOk result (Appends (W.contents (device_inner out.old)) (W.contents (device_inner out.new)) (parts_bytes parts.now)) }
    ensures running { OnOk result (device_failed out.new ≡ device_failed out.old) }
    ensures fault { IfErr result (IsPutFault W.contents out.old out.new (parts_bytes parts.now)) }
{
    let mut before = 0;
    for (start, end) in &parts.ranges {
        before = put_after(out, before, &parts.kept[*start..*end])?;
    }
    put_after(out, before, &parts.kept[parts.last..])?;
    Ok(())
}

/// Writes bytes after `before` others, and answers how many are written in all.
fn put_after<W: Write>(out: &mut Device<W>, before: usize, bytes: &[u8]) -> Result<usize, RunFault>
    requires { before + length bytes.now < 2 ^ 64 }
    ensures count { IfOk result (λ count. count ≡ before + length bytes.now) }
    ensures whole { OnOk result (Appends (W.contents (device_inner out.old)) (W.contents (device_inner out.new)) bytes.now) }
    ensures running { OnOk result (device_failed out.new ≡ device_failed out.old) }
    ensures fault { IfErr result (IsPutFaultAfter W.contents before out.old out.new bytes.now) }
{
    let written = out.write_front(bytes);
    if written < bytes.len() {
        return Err(RunFault::Writer(before + written));
    }
    Ok(before + written)
}
