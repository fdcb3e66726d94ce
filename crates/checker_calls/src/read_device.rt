//! The texts of readers.

ghost use Rattle.std.specs.Prelude.{◌≡◌, ◌≢◌, true, Err, OnOk, IfOk, IfErr, map, string_bytes};
ghost use Rattle.std.specs.Io.KnownBytes.{Consumes, IsAtEnd};
ghost use Rattle.std.specs.Rc.{rc_str_bytes};
ghost use Rattle.graphql_names.specs.Device.{device_inner, device_failed};
ghost use Rattle.checker_calls.specs.Devices.{IsTextOf, AreTextsOf, IsReadToEnd, AreReadToEnd};
ghost use Rattle.checker_calls.specs.ReadFaults.{IsTextFault, numbered_fault, IsReadFault};

use crate::run_fault::RunFault;
use graphql_names::Device;
use std::alloc::{AllocError, Global};
use std::io::Read;
use std::rc::RcStr;

/// Why a reader gives no text.
#[derive(Clone, Copy, Debug, PartialEq, Eq)]
pub enum TextFault {
    /// Memory ran out.
    Memory,
    /// The reader has failed.
    Reader,
    /// Its bytes are not UTF-8.
    NotUtf8,
}

impl From<AllocError> for TextFault {
    ghost use Rattle.std.specs.Prelude.{◌≡◌};
    ghost use Rattle.checker_calls.specs.declared.read_device.TextFault.TheVariants.{Memory};

    ghost from_gives = { λ _ e. e ≡ Memory };

    fn from(_refused: AllocError) -> TextFault {
        TextFault::Memory
    }
}

/// The texts of the readers, in order, to be shared. Each is read to its end, and decoded before the next is read.
pub fn read_texts<R: Read>(alloc: Global, devices: &mut [Device<R>]) -> Result<Vec<RcStr>, RunFault>
    ensures texts { IfOk result (λ texts. AreTextsOf R.remaining devices.old (map rc_str_bytes texts.items)) }
    ensures end { OnOk result (AreReadToEnd R.remaining devices.new) }
    ensures fault { IfErr result (IsReadFault R.remaining devices.old devices.new) }
    ensures running { OnOk result (map device_failed devices.new ≡ map device_failed devices.old) }
{
    let mut texts = Vec::new(alloc);
    for i in 0..devices.len() {
        match read_text(alloc, &mut devices[i]) {
            Ok(text) => texts.push(RcStr::from_string(text)?)?,
            Err(fault) => return Err(numbered(fault, i + 1)),
        }
    }
    Ok(texts)
}

/// The fault of the text with this number.
pub fn numbered(fault: TextFault, number: usize) -> RunFault
    ensures { result ≡ numbered_fault fault number }
{
    match fault {
        TextFault::Memory => RunFault::Memory,
        TextFault::Reader => RunFault::Reader(number),
        TextFault::NotUtf8 => RunFault::NotUtf8(number),
    }
}

/// The text of the reader.
pub fn read_text<R: Read>(alloc: Global, device: &mut Device<R>) -> Result<String, TextFault>
    ensures text { IfOk result (λ text. IsTextOf R.remaining device.old (string_bytes text)) }
    ensures end { OnOk result (IsReadToEnd R.remaining device.new) }
    ensures fault { IfErr result (IsTextFault R.remaining device.old device.new) }
    ensures running { OnOk result (device_failed device.new ≡ device_failed device.old) }
{
    // Decoded only when all bytes are there: a chunk may end amid a character.
    let bytes = read_bytes(alloc, device)?;
    match String::from_utf8(bytes) {
        Ok(text) => Ok(text),
        Err(_) => Err(TextFault::NotUtf8),
    }
}

/// The bytes of the reader, up to its end. Each turn adds a byte, ends or fails, so a reader without end runs out of memory
/// at the latest.
fn read_bytes<R: Read>(alloc: Global, device: &mut Device<R>) -> Result<Vec<u8>, TextFault>
    ensures bytes { IfOk result (λ v. Consumes (R.remaining (device_inner device.old)) (R.remaining (device_inner device.new)) v.items) }
    ensures end { OnOk result (IsAtEnd (R.remaining (device_inner device.new))) }
    ensures reader { result ≡ Err TextFault.Reader → device_failed device.new ≡ true }
    ensures encoding { result ≢ Err TextFault.NotUtf8 }
    ensures running { OnOk result (device_failed device.new ≡ device_failed device.old) }
{
    let mut bytes = Vec::new(alloc);
    let mut chunk = [0u8; 4096];
    loop {
        match device.read(&mut chunk) {
            Ok(0) => return Ok(bytes),
            Ok(n) => bytes.extend_from_slice(&chunk[..n])?,
            Err(_) => return Err(TextFault::Reader),
        }
    }
}
