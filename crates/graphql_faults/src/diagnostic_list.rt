//! Lists of what is wrong.
ghost use Rattle.std.specs.Prelude.{◌≡◌, [], ◌∷◌, ◌++◌, length, map, take, OnOk, OnErr, IsTrue, ◌↔◌};
ghost use Rattle.std.specs.Slice.Iter.{iter_rest};
ghost use Rattle.schema_fold.specs.FaultView as folding;
ghost use Rattle.fault_document_errors.specs.FaultView as typing;
ghost use Rattle.fault_data.specs.FaultView.{fault_of, faults_of};
ghost use Rattle.graphql_faults.specs.DetailsTree.{of_rule, of_folding, of_typing};
ghost use Rattle.graphql_faults.specs.DetailsView.{details_at, diagnostics_of, BeginsAs};

use crate::details::Details;
use fault_data::Fault;
use fault_document_errors::BuildError as DocumentError;
use graphql_names::SourceSpan;
use schema_fold::BuildError as SchemaError;
use std::alloc::{AllocError, Global};
use std::slice;

/// What is wrong, each with its place where it has one, in the order in which it was told.
pub struct DiagnosticList {
    diagnostics: Vec<(Option<SourceSpan>, Details)>,
}

impl Drop for DiagnosticList {
    fn drop(self) {
        let DiagnosticList { diagnostics: _ } = self;
    }
}

impl DiagnosticList {
    /// The empty list.
    pub fn new(alloc: Global) -> DiagnosticList
        ensures { diagnostics_of result ≡ [] }
    {
        DiagnosticList {
            diagnostics: Vec::new(alloc),
        }
    }

    /// The list of these, in order.
    pub fn from_vec(diagnostics: Vec<(Option<SourceSpan>, Details)>) -> DiagnosticList
        ensures { diagnostics_of result ≡ map details_at diagnostics.items }
    {
        DiagnosticList { diagnostics }
    }

    /// All of them, in order, as a plain list.
    pub fn into_vec(self) -> Vec<(Option<SourceSpan>, Details)>
        ensures { map details_at result.items ≡ diagnostics_of self }
    {
        let DiagnosticList { diagnostics } = self;
        diagnostics
    }

    /// Adds one at the end. After a refusal the list is as it was.
    pub fn push(&mut self, place: Option<SourceSpan>, details: Details) -> Result<(), AllocError>
        ensures added { OnOk result (diagnostics_of self.new ≡ diagnostics_of self.old ++ details_at (place, details) ∷ []) }
        ensures kept { OnErr result (diagnostics_of self.new ≡ diagnostics_of self.old) }
    {
        self.diagnostics.push((place, details))?;
        Ok(())
    }

    /// Moves those of the other list to the end. After a refusal both lists are as they were.
    pub fn append(&mut self, other: &mut DiagnosticList) -> Result<(), AllocError>
        ensures added { OnOk result (diagnostics_of self.new ≡ diagnostics_of self.old ++ diagnostics_of other.old) }
        ensures moved { OnOk result (diagnostics_of other.new ≡ []) }
        ensures kept { OnErr result (diagnostics_of self.new ≡ diagnostics_of self.old) }
        ensures other_kept { OnErr result (diagnostics_of other.new ≡ diagnostics_of other.old) }
    {
        self.diagnostics.append(&mut other.diagnostics)
    }

    /// Adds what breaks a rule at the end. After a refusal the list is as it was.
    pub fn push_fault(&mut self, fault: Fault) -> Result<(), AllocError>
        ensures added { OnOk result (diagnostics_of self.new ≡ diagnostics_of self.old ++ of_rule (fault_of fault) ∷ []) }
        ensures kept { OnErr result (diagnostics_of self.new ≡ diagnostics_of self.old) }
    {
        let (location, data) = fault.into_parts();
        self.push(location, Details::Data(data))
    }

    /// Moves what breaks rules to the end, in order. After a refusal the list begins as before.
    pub fn append_faults(&mut self, faults: Vec<Fault>) -> Result<(), AllocError>
        ensures added { OnOk result (diagnostics_of self.new ≡ diagnostics_of self.old ++ map of_rule (faults_of faults)) }
        ensures begins { OnErr result (BeginsAs (diagnostics_of self.old) (diagnostics_of self.new)) }
    {
        for fault in faults {
            self.push_fault(fault)?;
        }
        Ok(())
    }

    /// Moves what breaks rules of folding to the end, in order, as the builder of a schema gives it. After a refusal the list
    /// begins as before.
    pub fn append_schema_errors(
        &mut self,
        errors: Vec<(Option<SourceSpan>, SchemaError)>,
    ) -> Result<(), AllocError>
        ensures added { OnOk result (diagnostics_of self.new ≡ diagnostics_of self.old ++ map of_folding (folding.faults_of errors)) }
        ensures begins { OnErr result (BeginsAs (diagnostics_of self.old) (diagnostics_of self.new)) }
    {
        for (place, error) in errors {
            self.push(place, Details::SchemaBuild(error))?;
        }
        Ok(())
    }

    /// As `append_schema_errors`, for what breaks rules of typing, as the builder of a document gives it.
    pub fn append_document_errors(
        &mut self,
        errors: Vec<(Option<SourceSpan>, DocumentError)>,
    ) -> Result<(), AllocError>
        ensures added { OnOk result (diagnostics_of self.new ≡ diagnostics_of self.old ++ map of_typing (typing.faults_of errors)) }
        ensures begins { OnErr result (BeginsAs (diagnostics_of self.old) (diagnostics_of self.new)) }
    {
        for (place, error) in errors {
            self.push(place, Details::DocumentBuild(error))?;
        }
        Ok(())
    }

    /// Keeps the first `len` of them, or all if there are fewer.
    pub fn truncate(&mut self, len: usize)
        ensures { diagnostics_of self.new ≡ take len (diagnostics_of self.old) }
    {
        self.diagnostics.truncate(len);
    }

    /// How many there are.
    pub fn len(&self) -> usize
        ensures { result ≡ length (diagnostics_of self.now) }
    {
        self.diagnostics.len()
    }

    /// Whether there are none.
    pub fn is_empty(&self) -> bool
        ensures { IsTrue result ↔ (diagnostics_of self.now ≡ []) }
    {
        self.diagnostics.is_empty()
    }

    /// All of them, in order.
    pub fn iter(&self) -> slice::Iter<'_, (Option<SourceSpan>, Details)>
        ensures { map details_at (iter_rest result) ≡ diagnostics_of self.now }
    {
        self.diagnostics.iter()
    }
}
