//! Lists of labels, in which local transitions of one object in a row are counted.
//!
//! Does not know: programs, transitions and the formats of texts.
#![tactic(auto)]

mod list;
mod part;

pub use list::LabelList;
pub use part::Part;
