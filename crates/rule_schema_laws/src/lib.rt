//! Laws of schemas, of those that keep the rules above all: no code.
//!
//! For the layers above: where the rules hold, implementing is a strict order on interfaces (`specs/Implementing.antt`), and
//! each input type has a literal (`specs/Literals.antt`), of the schema as it was and of what validation leaves of it. What
//! is read meets the premises of the second (`specs/ReadTexts.antt`).
//!
//! And of what is built in: `specs/BuiltInText.antt` has its table as a text of the type system definition language, which is
//! read as the definitions that `schema_built_in` answers, apart from places (`specs/BuiltInTextReads.antt`, `built_in.rt`).
//!
//! Begin with `specs/Laws.antt`, then `specs/Implementing.antt` and `specs/Literals.antt`.
#![tactic(auto)]

pub mod built_in;
pub mod laws;
