// The worked examples P1 to P12 of 01, as one list (specs/Examples.antt) with one fact over it (proofs/Worked.antt): each speaks of a
// definition that the contracts cite. It has definitions and a proof and no code.
#![tactic(auto)]
