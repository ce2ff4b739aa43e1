// Lists of Steps and Passes made on a receiver, and the law of such runs.
#![tactic(auto)]

mod making;
mod replies;

pub use making::{NoMemory, Ran, Script, run_alike};
pub use replies::{Call, Reply};
