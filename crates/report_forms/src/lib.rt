//! What is told of a fault, in the forms that people and jobs read; where in a text it is, in lines and columns, and how the text of
//! others is shown.
//!
//! For the layer above: the position of an offset, and back, is exact (`specs/Positions.antt`), and the text of a line is what is
//! between two line terminators (`specs/LineTexts.antt`). `Entry` has what is told, and each form is what `specs/Forms.antt` says, the
//! line of JSON what `specs/Objects.antt` says. Of texts of others no control character goes into the forms that are written to
//! terminals and logs (`specs/Shown.antt`).
//!
//! Begin with `entry.rt`; a form has a file of its own, and `lines.rt` has positions.
#![tactic(auto)]

mod closest;
mod coloured_form;
mod ends;
mod entry;
mod escapes;
mod excerpt;
mod github_form;
mod json_form;
mod lines;
mod located;
mod noted;
mod order;
mod position;
mod push_line;
mod severity;
mod short_form;
mod showing;
mod source;
mod text_form;

pub use closest::Closest;
pub use entry::{Entry, Excerpt, Field, Place, Related};
pub use excerpt::excerpt_at;
pub use json_form::quoted;
pub use lines::Lines;
pub use noted::{Noted, related};
pub use order::{Rank, order_of};
pub use position::Position;
pub use severity::Severity;
pub use showing::{is_control, shown};
pub use source::{Source, path_at, place_at, source_at};
