// Sums and differences that 64 bits may not hold. Every function takes any input.
#![tactic(auto)]

pub mod sum;
