// What a proof by hand of a function that hands its slices on can cite (proofs/Handed.antt); no proof here needs it now. It has no code.

#![tactic(auto)]
