//! A use of what the checker lets pass, and its text.
ghost use Rattle.std.specs.Prelude.{◌≡◌, Some};
ghost use Rattle.strict_documents.specs.DepartureViews.{departure_name, departure_text, departure_tree, text_before, text_after};

use graphql_names::{Name, SourceSpan};
use std::fmt;

/// What the specification does not allow, and the checker lets pass.
#[derive(Clone, Copy)]
pub enum DepartureKind {
    /// A number for a `Float` that no finite 64-bit float is nearest to (section 3.5.2).
    FloatPast64Bits,
    /// An item of a list that is no list, where a list is expected (section 3.11).
    ItemIsNoList,
    /// A variable that fits an argument only by its default null (section 5.8.5).
    NullDefault,
    /// A variable inside a list or an object, whose type does not fit there (section 5.8.5).
    VariableInside,
    /// A fragment on the type of its own set, of which no object is (section 5.5.2.3).
    SpreadWithoutObject,
    /// A fragment at the root of a subscription that the type of the subscription is not of (section 5.2.3.1).
    SubscriptionOfNothing,
    /// An argument with a `!` and a default that the field of the interface does not have (section 3.6).
    ExtraRequiredArgument,
    /// An argument or input field that is required and has `@deprecated` (section 3.13.3).
    RequiredDeprecated,
    /// A definition of a directive that is built in (section 3.13).
    OwnBuiltInDirective,
    /// A directive that is applied to the definition of a directive (section 3.13).
    DirectiveOnDirective,
    /// Something that is added to a type of the introspection (section 4.2).
    ExtendedBuiltIn,
    /// A character that no source text may have (section 2.1).
    SourceCharacter,
}

impl DepartureKind {
    /// The name of the warning about it.
    pub fn warning_name(self) -> &'static str
        ensures { result.now ≡ departure_name self }
    {
        match self {
            DepartureKind::FloatPast64Bits => "FloatPast64Bits",
            DepartureKind::ItemIsNoList => "ItemIsNoList",
            DepartureKind::NullDefault => "NullDefault",
            DepartureKind::VariableInside => "VariableInside",
            DepartureKind::SpreadWithoutObject => "SpreadWithoutObject",
            DepartureKind::SubscriptionOfNothing => "SubscriptionOfNothing",
            DepartureKind::ExtraRequiredArgument => "ExtraRequiredArgument",
            DepartureKind::RequiredDeprecated => "RequiredDeprecated",
            DepartureKind::OwnBuiltInDirective => "OwnBuiltInDirective",
            DepartureKind::DirectiveOnDirective => "DirectiveOnDirective",
            DepartureKind::ExtendedBuiltIn => "ExtendedBuiltIn",
            DepartureKind::SourceCharacter => "SourceCharacter",
        }
    }

    /// Its text before the name that it mentions.
    fn before(self) -> &'static str
        ensures { result.now ≡ text_before self }
    {
        match self {
            DepartureKind::FloatPast64Bits => "no finite 64-bit float is nearest to this number",
            DepartureKind::ItemIsNoList => {
                "a list is expected for each item of this list, and this item is none"
            }
            DepartureKind::NullDefault => "`$",
            DepartureKind::VariableInside => "the type of `$",
            DepartureKind::SpreadWithoutObject => "no object is of the type `",
            DepartureKind::SubscriptionOfNothing => "the type of the subscription is none of `",
            DepartureKind::ExtraRequiredArgument
            | DepartureKind::RequiredDeprecated
            | DepartureKind::ExtendedBuiltIn => "`",
            DepartureKind::OwnBuiltInDirective | DepartureKind::DirectiveOnDirective => "`@",
            DepartureKind::SourceCharacter => {
                "the specification has no such character in its texts"
            }
        }
    }

    /// Its text after the name.
    fn after(self) -> &'static str
        ensures { result.now ≡ text_after self }
    {
        match self {
            DepartureKind::FloatPast64Bits
            | DepartureKind::ItemIsNoList
            | DepartureKind::SourceCharacter => "",
            DepartureKind::NullDefault => {
                "` fits this argument only by its default, which is null"
            }
            DepartureKind::VariableInside => "` does not fit its place in this value",
            DepartureKind::SpreadWithoutObject | DepartureKind::SubscriptionOfNothing => {
                "`, so nothing is selected here"
            }
            DepartureKind::ExtraRequiredArgument => {
                "` takes no null, and the field of the interface has no such argument"
            }
            DepartureKind::RequiredDeprecated => "` is required, and deprecated",
            DepartureKind::OwnBuiltInDirective => "` is built in, and defined here",
            DepartureKind::DirectiveOnDirective => {
                "` is applied to the definition of a directive"
            }
            DepartureKind::ExtendedBuiltIn => "` is added to a type that is built in",
        }
    }
}

/// One use of what the checker lets pass.
pub struct Departure {
    pub location: Option<SourceSpan>,
    pub kind: DepartureKind,
    /// The name that its text mentions, if it mentions one.
    pub name: Option<Name>,
}

impl Drop for Departure {
    fn drop(self) {
        let Departure {
            location: _,
            kind: _,
            name: _,
        } = self;
    }
}

impl Departure {
    /// The name that its text mentions, or nothing.
    fn mentioned(&self) -> &str
        ensures { result.now ≡ (departure_tree self.now).name }
    {
        match &self.name {
            None => "",
            Some(name) => name.as_str(),
        }
    }
}

/// Such as "`x` is required, and deprecated".
impl fmt::Display for Departure {
    ghost output = { λ d. Some (departure_text (departure_tree d)) };

    fn fmt<W: fmt::Write>(&self, f: &mut fmt::Formatter<W>) -> fmt::Result {
        let before = self.kind.before();
        let after = self.kind.after();
        write!(f, "{before}{}{after}", self.mentioned())
    }
}
