// Demand 3 carried to lists of steps and to the ledger. All of it is in specs/.

#![tactic(auto)]

pub fn nothing() {}
