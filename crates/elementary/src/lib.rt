// The elementary functions that the formulation needs: the square root, the fourth root, and the natural
// logarithm, which f64 lacks. Every call takes every number and ends; what it answers is said in specs/.
#![tactic(auto)]

mod logs;
mod roots;

pub use logs::log;
pub use roots::{fourth_root, root};
