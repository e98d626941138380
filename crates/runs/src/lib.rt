// The codes 31 to 41: the ten lists, and a recipe with its ledger.

#![tactic(auto)]

pub mod calls;
pub mod more;
pub mod reading;
#[cfg(test)]
mod tests;
pub mod work;
