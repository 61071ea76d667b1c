// Calls of the monitor's functions and guests' stores on the two lent slices are a run of the model. All of it is in specs/ and proofs/.
#![tactic(auto)]
