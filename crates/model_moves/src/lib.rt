// The model by moves: the monitor's operations are paths of moves, each at most one store, and the processor looks between
// any two. All of it is in specs/.
#![tactic(auto)]
