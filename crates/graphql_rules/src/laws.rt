//! Laws of the rules, each the contract of a function that does nothing.

pub use rule_definitions::laws::equal_schemas_same_breaches;
pub use rule_schema_laws::laws::{
    implementing_is_an_order, input_types_have_literals, other_scalars_have_no_literal,
    read_texts_meet_the_premises,
};
