//! Laws of the rules on documents: what equality means, and that rules that stay broken do.

ghost use Rattle.graphql_validation.specs.LastingLaws.{LastingFaultsStay, LastingFaultsAreFaults, DocumentsArePartOfThemselves};

pub use rule_fragments::laws::equal_field_selections;

/// What breaks a rule that stays broken is a fault of the document, and of every document that has all that it has.
pub fn lasting_faults_stay()
    ensures stay { LastingFaultsStay }
    ensures faults { LastingFaultsAreFaults }
    ensures part { DocumentsArePartOfThemselves }
{}
