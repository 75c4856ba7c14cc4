// What the programs tawqeru and recipe_week do with their words and their trace: the sheet, the plan, the curve and refusals as
// a user meets them.
#![tactic(auto)]

mod asked;
mod input;
mod program;

pub use input::read_text;
pub use program::{print_refused, tawqeru, words_of};
