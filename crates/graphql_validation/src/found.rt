//! What is found in a document: faults, and the fragments that operations reach; and the rules on all fragments of it.
ghost use Rattle.std.specs.Prelude.{◌≡◌, [], IfOk, OnOk};
ghost use Rattle.std.specs.List.{IsDistinct};
ghost use Rattle.std.specs.Map.{keys_of};
ghost use Rattle.std.specs.Str.{bytes_eq};
ghost use Rattle.rule_fragments.specs.in_typed_operations.DocumentView.{document_meant};
ghost use Rattle.rule_fragments.specs.in_reach.Reach.{reached_fragments_of};
ghost use Rattle.rule_fragments.specs.in_reach.NotedNames.{noted_names};
ghost use Rattle.fault_data.specs.FaultView.{faults_of};
ghost use Rattle.graphql_validation.specs.Operations.{with_fragments};
ghost use Rattle.graphql_validation.specs.OperationChecks.{Joins, TellsFragments};

use document_typed_operations::ExecutableDocument;
use fault_data::{Fault, is_full};
use graphql_faults::add_new;
use graphql_names::Name;
use indexmap::IndexSet;
use rule_fragments::{Reach, check_cycles, check_unused, note_name};
use std::alloc::{AllocError, Global};
use std::mem::replace;

/// The faults that were found so far, and the names of the fragments that the operations so far reach.
#[derive(Drop)]
pub(crate) struct Found {
    pub(crate) faults: Vec<Fault>,
    pub(crate) used: IndexSet<Name>,
}

impl Found {
    /// Nothing found yet.
    pub(crate) fn new(alloc: Global) -> Found
        ensures faults { result.faults.items ≡ [] }
        ensures used { result.used.keys ≡ [] }
    {
        Found {
            faults: Vec::new(alloc),
            used: IndexSet::new(alloc),
        }
    }

    /// Takes out the faults that were found, so that the faults of the next operation are found apart from them.
    pub(crate) fn take_faults(&mut self) -> Vec<Fault>
        ensures taken { result ≡ self.old.faults }
        ensures none { self.new.faults.items ≡ [] }
        ensures used { self.new.used ≡ self.old.used }
    {
        let alloc = *self.faults.allocator();
        replace(&mut self.faults, Vec::new(alloc))
    }

    /// Puts what was found before in front of the faults of an operation, except for those that were found already: most
    /// operations share fragments. If an operation has as many as a call tells, only its faults are told.
    pub(crate) fn join(&mut self, before: Vec<Fault>) -> Result<(), AllocError>
        ensures joined { OnOk result (Joins (faults_of before) (faults_of self.old.faults) (faults_of self.new.faults)) }
        ensures used { self.new.used ≡ self.old.used }
    {
        if is_full(&self.faults) {
            return Ok(());
        }
        let own = replace(&mut self.faults, before);
        add_new(&mut self.faults, own)
    }
}

/// Adds the name of each fragment that is reached.
pub(crate) fn note_fragments(
    reach: &Reach<'_>,
    names: &mut IndexSet<Name>,
) -> Result<(), AllocError>
    ensures { OnOk result (noted_names names.new ≡ with_fragments (noted_names names.old) (reached_fragments_of reach.now)) }
{
    for index in 0..reach.fragments.len() {
        note_name(&reach.fragments[index].content().name, names)?;
    }
    Ok(())
}

/// Its contract says that no two fragments of a document are under one name, and nothing else.
pub(crate) fn fragments_differ(document: &ExecutableDocument)
    ensures { IsDistinct bytes_eq (keys_of (document_meant document.now).fragments) }
{
    // The length is dropped: the contract of `len` says that the names in a map differ.
    let _ = document.fragments.len();
}

/// The faults that were found, and after them, unless the list is full, those of all fragments of the document:
/// UnusedFragment, and RecursiveFragmentDefinition of those that an operation reaches.
pub(crate) fn check_fragments(
    document: &ExecutableDocument,
    found: Found,
) -> Result<Vec<Fault>, AllocError>
    ensures { IfOk result (λ r. TellsFragments (document_meant document.now) found (faults_of r)) }
{
    let Found { mut faults, used } = found;
    // Then perhaps not all operations were walked, so names may be missing.
    if is_full(&faults) {
        return Ok(faults);
    }
    let alloc = *faults.allocator();
    // After all operations, as any of them may use a fragment.
    check_unused(&document.fragments, &used, &mut faults)?;
    check_cycles(alloc, &document.fragments, &used, &mut faults)?;
    Ok(faults)
}
