// The third demand, of every run of moves, a file for each sentence. All of it is in specs/.
#![tactic(auto)]
