// What holds of the whole: demand 3 from an accepted load, and the worked examples that paper 01 marks P.
// The statements stand in specs/, their proofs in proofs/.
#![tactic(auto)]
