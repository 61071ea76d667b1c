// The third demand, of the model and of the two lent slices that the code works on. The theorems are in
// proofs/Theorems, and words of two of them in specs/.
#![tactic(auto)]
