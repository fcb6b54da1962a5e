// What every layer uses: values of settings, the bounded list, and refusals.
#![tactic(auto)]

pub mod bounded;
pub mod checks;
pub mod lists;
pub mod refusal;
pub mod value;
pub mod watts;
pub mod window;
