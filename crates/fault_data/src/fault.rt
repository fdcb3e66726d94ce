//! What breaks rules, each with its place.
ghost use Rattle.std.specs.Prelude.{◌≡◌, ◌↔◌, ◌≤◌, length, map, IfOk, IsTrue, OnErr, OnOk, option_to_list};
ghost use Rattle.fault_data.specs.FaultView.{fault_of, faults_of};
ghost use Rattle.rule_definitions.specs.Room.{◌⊕◌, most_told};

use crate::diagnostic_data::DiagnosticData;
use graphql_names::SourceSpan;
use std::alloc::AllocError;

/// How many faults of the rules a call tells at most: a short text can break them millions of times.
pub const MOST_TOLD: usize = 1_000;

/// What breaks a rule, and where: None where there is no place.
pub struct Fault {
    pub location: Option<SourceSpan>,
    pub data: DiagnosticData,
}

impl Drop for Fault {
    fn drop(self) {
        let Fault {
            location: _,
            data: _,
        } = self;
    }
}

impl Fault {
    /// Where it is, and what is wrong.
    pub fn into_parts(self) -> (Option<SourceSpan>, DiagnosticData)
        ensures location { result.0 ≡ self.location }
        ensures data { result.1 ≡ self.data }
    {
        let Fault { location, data } = self;
        (location, data)
    }

    /// The same fault again.
    pub fn clone(&self) -> Result<Fault, AllocError>
        ensures { IfOk result (λ copy. fault_of copy ≡ fault_of self.now) }
    {
        let data = self.data.clone()?;
        Ok(Fault {
            location: self.location,
            data,
        })
    }
}

/// Whether there are as many faults as a call tells.
// A `&Vec` and no slice: contracts see the faults of a list.
pub fn is_full(faults: &Vec<Fault>) -> bool
    ensures { IsTrue result ↔ (most_told ≤ length (faults_of faults.now)) }
{
    faults.len() >= MOST_TOLD
}

/// Adds the fault at the end, if there is one and [`MOST_TOLD`] are not there yet. After a refusal the list is as it was.
#[tactic(auto, using(rule_definitions::proofs::Room::room_full))]
pub fn tell(faults: &mut Vec<Fault>, fault: Option<Fault>) -> Result<(), AllocError>
    ensures told { OnOk result (faults_of faults.new ≡ faults_of faults.old ⊕ map fault_of (option_to_list fault)) }
    ensures kept { OnErr result (faults_of faults.new ≡ faults_of faults.old) }
{
    match fault {
        None => Ok(()),
        Some(fault) => {
            if is_full(faults) {
                return Ok(());
            }
            faults.push(fault)?;
            Ok(())
        }
    }
}
