// Laws of the crates below that no proof calls. All of it is in specs/.

#![tactic(auto)]

pub fn nothing() {}
