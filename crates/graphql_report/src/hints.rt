//! Hints: names that may be meant, what is at the place where a text is not read, and what to do.

ghost use Rattle.std.specs.Prelude.{IfOk, option_map, string_bytes};
ghost use Rattle.graphql_report.specs.Offered.{names_of, Offers};

use crate::found::named_again;
use crate::schema_hints::schema_hint;
use crate::syntax_hints::syntax_hint;
use crate::text_names::{NameKind, TextName, push_names};
use fault_data::DiagnosticData;
use fault_document_errors::BuildError;
use graphql_faults::Details;
use graphql_names::{FileId, Name, SourceSpan};
use graphql_schema::Schema;
use report_forms::{Closest, Source, source_at};
use schema_fold::BuildError as FoldingError;
use std::alloc::{AllocError, Global};

/// How many faults of a report may have a hint.
const FAULTS: usize = 1_000;
/// How many faults of syntax say what the grammar takes there.
const SYNTAX: usize = 20;
/// How many paths are named.
const PATHS: usize = 5;
/// How many bytes of names may be compared for each byte of the texts: so all their names can be compared at least this often.
const BYTES: usize = 16;
/// Added to the length of the texts, for the names of built-in definitions.
const BUILT_IN: usize = 1_000;
/// The built-in scalars (section 3.5) and directives (section 3.13).
const BUILT_IN_NAMES: &[(NameKind, &str)] = &[
    (NameKind::Type, "Int"),
    (NameKind::Type, "Float"),
    (NameKind::Type, "String"),
    (NameKind::Type, "Boolean"),
    (NameKind::Type, "ID"),
    (NameKind::Directive, "skip"),
    (NameKind::Directive, "include"),
    (NameKind::Directive, "deprecated"),
    (NameKind::Directive, "specifiedBy"),
];

/// How many more faults of a report may have a hint, how many more bytes of names may be compared for them, and the names that
/// the texts have: those of a document, or those of a schema that is refused.
///
/// So hints take time linear in the texts, however many faults there are.
#[derive(Drop)]
pub(crate) struct Hints<'a> {
    faults: usize,
    syntax: usize,
    bytes: usize,
    names: Vec<TextName<'a>>,
    /// Whether one of the texts has `#import`.
    has_import: bool,
    /// Whether one of them defines the schema.
    has_schema: bool,
}

impl<'a> Hints<'a> {
    /// The hints of a report over these texts, of which the last is that of the document, if it is of a document.
    pub(crate) fn new(
        alloc: Global,
        sources: &[Source<'a>],
        is_of_document: bool,
    ) -> Result<Hints<'a>, AllocError> {
        let mut length = BUILT_IN;
        let mut names = Vec::new(alloc);
        let (mut has_import, mut has_schema) = (false, false);
        let mut number = 0u64;
        for source in sources {
            let text = source.lines.text();
            length = length.saturating_add(text.len());
            number = number.saturating_add(1);
            if !is_of_document || number == sources.len() as u64 {
                push_names(&mut names, FileId(number), text)?;
                has_import = has_import || text.contains("#import");
            }
        }
        if !is_of_document {
            for (kind, name) in BUILT_IN_NAMES {
                names.push(TextName {
                    kind: *kind,
                    name: *name,
                    of: "",
                    file: FileId::BUILT_IN,
                    start: 0,
                })?;
            }
        }
        for one in &names {
            has_schema = has_schema || one.kind == NameKind::Schema;
        }
        Ok(Hints {
            faults: FAULTS,
            syntax: SYNTAX,
            bytes: length.saturating_mul(BYTES),
            names,
            has_import,
            has_schema,
        })
    }

    /// The first place of the name that a fault tells to be there twice, within the fault's own place or apart from it.
    pub(crate) fn first_named(
        &mut self,
        own: SourceSpan,
        details: &Details,
        is_within: bool,
    ) -> Option<TextName<'a>> {
        if self.bytes == 0 {
            return None;
        }
        let (kind, of, name) = named_again(details)?;
        let mut seen = 0usize;
        let mut found = None;
        for one in &self.names {
            seen = seen.saturating_add(one.name.len());
            let is_own = one.file == own.file_id
                && own.offset <= one.start
                && one.start - own.offset < own.length;
            let is_same = one.kind == kind && one.name == name && (of.is_empty() || one.of == of);
            if is_same && is_own == is_within {
                found = Some(*one);
                break;
            }
        }
        self.bytes = self.bytes.saturating_sub(seen);
        found
    }

    /// What to do, if the fault and the texts say it.
    fn what_to_do(
        &mut self,
        alloc: Global,
        sources: &[Source<'_>],
        place: Option<SourceSpan>,
        details: &Details,
    ) -> Result<Option<String>, AllocError> {
        match (details, place) {
            (Details::Data(DiagnosticData::QueryRootOperationType), _) if !self.has_schema => {
                let missing = "type `Query` and no `schema { query: .. }`";
                Ok(Some(missing_words(alloc, missing, sources)?))
            }
            (Details::SchemaBuild(FoldingError::TypeDefinitionCollision { name }), Some(own)) => {
                let Some(TextName { of, .. }) = self.first_named(own, details, false) else {
                    return Ok(None);
                };
                let rest = match of {
                    "union" => "= ..",
                    "scalar" => "@..",
                    _ => "{ .. }",
                };
                Ok(Some(format!(in alloc; "`extend {of} {name} {rest}` adds to it")?))
            }
            (Details::Data(DiagnosticData::UndefinedFragment { .. }), _) if !self.has_import => Ok(
                None,
            ),
            _ => match fixed_words(details, place.is_some()) {
                Some(words) => Ok(Some(String::from_str(alloc, words)?)),
                None => Ok(None),
            },
        }
    }
}

/// What to do, in words that are always the same: about a query root that `schema` does not name, a fragment that is imported, a
/// text of the wrong kind, a bound that is passed, and what is defined twice.
fn fixed_words(details: &Details, has_place: bool) -> Option<&'static str> {
    match details {
        Details::Nesting => Some("the nesting limit can be raised (--nesting)"),
        Details::RecursionLimitError if has_place => Some("fields may be nested 128 levels deep"),
        Details::RecursionLimitError => Some(
            "selections may be nested 500 levels deep, those of fragments counted",
        ),
        Details::Data(DiagnosticData::QueryRootOperationType) => Some(
            "`schema { .. }` does not name the query root",
        ),
        Details::Data(DiagnosticData::UndefinedFragment { .. }) => Some(
            "an `#import` is a comment here: the text must have the fragment itself",
        ),
        Details::Data(DiagnosticData::DeeplyNestedType { describe_type, .. }) => Some(
            match *describe_type {
                "fragment" => "at most 100 fragments may be spread one in another",
                _ => "at most 32 definitions may be nested one in another",
            },
        ),
        Details::DocumentBuild(BuildError::TypeSystemDefinition) => Some(
            "type definitions are of a schema: give this text as one of its own",
        ),
        Details::DocumentBuild(
            BuildError::OperationNameCollision { .. } | BuildError::FragmentNameCollision { .. },
        ) => Some("give one of the two another name"),
        Details::SchemaBuild(error) => words_of_folding(error),
        _ => None,
    }
}

/// What to do about a text of the wrong kind, or what is defined twice, in a schema.
fn words_of_folding(error: &FoldingError) -> Option<&'static str> {
    match error {
        FoldingError::ExecutableDefinition => Some(
            "operations and fragments are of a document: give this text as one",
        ),
        FoldingError::SchemaDefinitionCollision => Some("`extend schema { .. }` adds to it"),
        FoldingError::BuiltInScalarTypeRedefinition { .. } => Some(
            "it is built in: delete this definition",
        ),
        FoldingError::DirectiveDefinitionCollision { .. }
        | FoldingError::DuplicateImplementsInterfaceInObject { .. }
        | FoldingError::DuplicateImplementsInterfaceInInterface { .. }
        | FoldingError::ObjectFieldNameCollision { .. }
        | FoldingError::InterfaceFieldNameCollision { .. }
        | FoldingError::EnumValueNameCollision { .. }
        | FoldingError::UnionMemberNameCollision { .. }
        | FoldingError::InputFieldNameCollision { .. } => Some("delete one of the two"),
        _ => None,
    }
}

/// A hint for the fault, if there is one, and faults and bytes are left.
pub(crate) fn hint_of(
    alloc: Global,
    hints: &mut Hints<'_>,
    sources: &[Source<'_>],
    schema: Option<&Schema>,
    place: Option<SourceSpan>,
    details: &Details,
) -> Result<Option<String>, AllocError> {
    if hints.faults == 0 || hints.bytes == 0 {
        return Ok(None);
    }
    hints.faults -= 1;
    if is_beside_mark(sources, place) {
        let words = "U+FEFF (zero width no-break space) is beside it: delete that";
        return Ok(Some(String::from_str(alloc, words)?));
    }
    if let Details::Syntax(_) = details
        && let Some(span) = place
        && let Some(source) = source_at(sources, span)
    {
        let tells_forms = hints.syntax > 0;
        hints.syntax = hints.syntax.saturating_sub(1);
        return syntax_hint(alloc, source.lines.text(), span, tells_forms);
    }
    if let Some(words) = hints.what_to_do(alloc, sources, place, details)? {
        return Ok(Some(words));
    }
    if let Some(words) = near_name(
        alloc,
        &hints.names,
        &mut hints.bytes,
        schema.is_some(),
        details,
    )? {
        return Ok(Some(words));
    }
    match (schema, details) {
        (Some(schema), _) => schema_hint(alloc, &mut hints.bytes, schema, details),
        (
            None,
            Details::Data(DiagnosticData::UndefinedDefinition { name })
            | Details::SchemaBuild(FoldingError::OrphanTypeExtension { name }),
        ) => {
            let missing = format!(in alloc; "type `{name}`")?;
            Ok(Some(missing_words(alloc, &missing, sources)?))
        }
        _ => Ok(None),
    }
}

/// Whether U+FEFF, which is not seen, ends a name at the place or begins one: anywhere but at the beginning of a text.
fn is_beside_mark(sources: &[Source<'_>], place: Option<SourceSpan>) -> bool {
    let Some(span) = place else {
        return false;
    };
    let Some(source) = source_at(sources, span) else {
        return false;
    };
    let (head, rest) = source
        .lines
        .text()
        .split_at_checked(span.offset)
        .unwrap_or(("", ""));
    let (_, following) = rest.split_at_checked(span.length).unwrap_or(("", ""));
    following.starts_with('\u{feff}') || head.len() > 3 && head.ends_with('\u{feff}')
}

/// Words for what is in none of these texts of a schema.
fn missing_words(
    alloc: Global,
    missing: &str,
    sources: &[Source<'_>],
) -> Result<String, AllocError> {
    let mut words = format!(in alloc; "no {missing} in ")?;
    let (named, others) = sources.split_at(sources.len().min(PATHS));
    let mut joint = "";
    for source in named {
        let path = source.path;
        write!(words, "{joint}{path}")?;
        joint = ", ";
    }
    if !others.is_empty() {
        write!(words, " and {} more", others.len())?;
    }
    words.push_str("; a schema of several files needs them all")?;
    Ok(words)
}

/// Of which kind, and of which type, the names are among which the one that a fault tells may be meant, and that one: a variable or a
/// fragment of a document; of a schema a type, a directive or a member of a type.
fn sought(details: &Details, is_of_document: bool) -> Option<(NameKind, &str, &Name)> {
    match details {
        Details::Data(DiagnosticData::UndefinedVariable { name }) => Some((
            NameKind::Variable,
            "",
            name,
        )),
        Details::Data(DiagnosticData::UndefinedFragment { name }) => Some((
            NameKind::Fragment,
            "",
            name,
        )),
        _ if is_of_document => None,
        Details::Data(DiagnosticData::UndefinedDefinition { name })
        | Details::SchemaBuild(FoldingError::OrphanTypeExtension { name }) => Some((
            NameKind::Type,
            "",
            name,
        )),
        Details::Data(DiagnosticData::UndefinedDirective { name }) => Some((
            NameKind::Directive,
            "",
            name,
        )),
        Details::Data(
            DiagnosticData::UndefinedEnumValue {
                value: name,
                definition,
                ..
            }
            | DiagnosticData::UndefinedInputValue {
                value: name,
                definition,
                ..
            },
        ) => Some((NameKind::Member, definition.as_str(), name)),
        _ => None,
    }
}

/// The closest of the names that may be meant.
#[tactic(auto, using(crate::proofs::Offering::seen_more, crate::proofs::Offering::offers_seen))]
fn near_name(
    alloc: Global,
    names: &[TextName<'_>],
    left: &mut usize,
    is_of_document: bool,
    details: &Details,
) -> Result<Option<String>, AllocError>
    ensures { IfOk result (λ words. Offers (names_of names.now) (option_map string_bytes words)) }
{
    let Some((kind, of, given)) = sought(details, is_of_document) else {
        return Ok(None);
    };
    let given = given.as_str();
    let mut closest = Closest::new(alloc, given);
    for one in names {
        if one.kind == kind && (of.is_empty() || one.of == of) {
            let name = one.name;
            closest.see(name);
        }
    }
    *left = left.saturating_sub(names.len());
    let sign = match kind {
        NameKind::Variable => "$",
        NameKind::Directive => "@",
        _ => "",
    };
    closest.hint(sign, left)
}
