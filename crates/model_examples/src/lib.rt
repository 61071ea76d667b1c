// Nothing is said of nothing: choices exist, and runs of the model are computed by the prover. All of it is in specs/.
#![tactic(auto)]
