//! Which built-in scalars something refers to.
ghost use Rattle.std.specs.Prelude.{◌≡◌, ◌↔◌, IsTrue, Contains};
ghost use Rattle.rule_definitions.specs.Names.{scalar_names};
ghost use Rattle.graphql_rules.specs.Scalars.{IsNoted, Notes};

use graphql_names::Name;
use rule_cycles::Schema;

/// Which of the five built-in scalars (section 3.5) something refers to.
#[derive(Clone, Copy, PartialEq, Eq)]
pub struct BuiltInScalars {
    pub int: bool,
    pub float: bool,
    pub string: bool,
    pub boolean: bool,
    pub id: bool,
}

impl BuiltInScalars {
    /// None of them yet.
    pub fn new() -> BuiltInScalars
        ensures { (n : _) → IsNoted result n → ⊥ }
    {
        BuiltInScalars {
            int: false,
            float: false,
            string: false,
            boolean: false,
            id: false,
        }
    }

    /// Notes that something of the schema refers to a type of that name, and answers whether it is one of the five.
    pub fn record_type_ref(&mut self, schema: &Schema, name: &Name) -> bool
        ensures is_one { IsTrue result ↔ Contains scalar_names name.now.text }
        ensures noted { Notes self.old self.new name.now.text }
    {
        let _ = schema;
        match name.as_str() {
            "Int" => self.int = true,
            "Float" => self.float = true,
            "String" => self.string = true,
            "Boolean" => self.boolean = true,
            "ID" => self.id = true,
            _ => return false,
        }
        true
    }
}
