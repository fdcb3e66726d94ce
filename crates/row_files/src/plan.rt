//! Where devices end.

ghost use Rattle.std.specs.Prelude.{◌≡◌, false};
ghost use Rattle.graphql_names.specs.Device.{device_failed};

use graphql_names::{Cut, Device, Ending};
use std::io::ErrorKind;

/// How many bytes devices pass on, and how they end.
#[derive(Clone, Copy)]
pub struct Plan {
    /// The most bytes a call.
    pub step: usize,
    /// The number of the text whose reader ends after `read` bytes. Each later reader fails at its first call.
    pub text: usize,
    /// After so many bytes the reader of `text` ends.
    pub read: usize,
    /// After so many bytes the writer ends.
    pub write: usize,
    /// How the device that ends does so.
    pub ending: Ending,
}

/// The plan by which no device ends.
pub fn whole() -> Plan {
    Plan {
        step: usize::MAX,
        text: usize::MAX,
        read: usize::MAX,
        write: usize::MAX,
        ending: Ending::TakesNothing,
    }
}

/// How devices end. An interruption is a failure like any other.
pub fn endings() -> [Ending; 3] {
    [
        Ending::Fails(ErrorKind::Interrupted),
        Ending::Fails(ErrorKind::Other),
        Ending::TakesNothing,
    ]
}

/// A device over `inner` that ends after `total` bytes.
pub fn device<D>(inner: D, plan: Plan, total: usize) -> Device<Cut<D>>
    ensures { device_failed result ≡ false }
{
    Device::new(Cut::new(inner, plan.step.max(1), total, plan.ending))
}

/// The reader of the text of this number.
pub fn reader<'a>(bytes: &'a [u8], plan: Plan, number: usize) -> Device<Cut<&'a [u8]>>
    ensures { device_failed result ≡ false }
{
    if number < plan.text {
        device(bytes, plan, bytes.len().saturating_add(1))
    } else if number == plan.text {
        device(bytes, plan, plan.read)
    } else {
        device(bytes, plan, 0)
    }
}
