//! What typing answers of an expression, the answers of conjunctions, disjunctions and one-sided choices by those of their parts, and the
//! nodes of which they are made, whose parts carry their types.
//! Contract: each answer is exact (`seen` of it is what the model's `typed` has for that kind), and each node's types are `marks_of`.
//! Used by the typechecker's walk and by the answers of operators and literals.
#![tactic(auto)]

mod answer;
mod choice;
mod connectives;
mod copies;
mod faults;
mod kinds;
mod parts;
mod sequence;
mod surface;

pub use answer::{Judged, TypecheckAnswer, judged_node, plain_node};
pub use choice::{ChoiceStep, choice_node, choice_step, first_answer, second_answer};
pub use connectives::{Step, and_answer, and_step, conjoined, disjoined, or_answer, or_step};
pub use copies::untyped;
pub use faults::{Faults, TypeFault, TypingErrorKind, failed, no_type};
pub use kinds::{call_kind, record_kind, set_kind};
pub use parts::shared_two;
