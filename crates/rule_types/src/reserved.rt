//! Names that begin with `__` are reserved for introspection (section 2.1.9).
ghost use Rattle.std.specs.Prelude.{◌≡◌, OnOk};
ghost use Rattle.rule_types.specs.Adds.{AddsThese};
ghost use Rattle.fault_data.specs.in_rule_definitions.Names.{is_reserved};
ghost use Rattle.rule_types.specs.NamedWords.{named_words};
ghost use Rattle.rule_types.specs.FaultLists.{reserved_name};

use fault_data::{DiagnosticData, Fault, tell};
use graphql_names::{Name, SourceSpan};
use std::alloc::AllocError;

/// What has a name, apart from types.
#[derive(Clone, Copy)]
pub(crate) enum Named {
    Directive,
    Field,
    Argument,
    InputField,
    EnumValue,
}

impl Named {
    /// It in words, with the article.
    pub(crate) fn describe(self) -> &'static str
        ensures { result.now ≡ named_words self }
    {
        match self {
            Named::Directive => "a directive definition",
            Named::Field => "a field",
            Named::Argument => "an argument",
            Named::InputField => "an input object field",
            Named::EnumValue => "an enum value",
        }
    }
}

/// ReservedName: a name that is not built in is valid only if it does not begin with `__` (section 2.1.9). `location` is
/// that of the name.
pub(crate) fn reserved_name(
    built_in: bool,
    name: &Name,
    location: Option<SourceSpan>,
    describe: &'static str,
    faults: &mut Vec<Fault>,
) -> Result<(), AllocError>
    ensures { OnOk result (AddsThese faults.old faults.new (reserved_name built_in name.now.text location describe.now)) }
{
    // The names of introspection begin with `__`.
    if built_in {
        return Ok(());
    }
    if !is_reserved(name.as_str()) {
        return Ok(());
    }
    let name = name.clone()?;
    tell(
        faults,
        Some(Fault {
            location,
            data: DiagnosticData::ReservedName { name, describe },
        }),
    )
}

/// Whether the name begins with `__`.
fn is_reserved(text: &str) -> bool
    ensures { result ≡ is_reserved text.now }
{
    matches!(text.as_bytes(), [b'_', b'_', ..])
}
