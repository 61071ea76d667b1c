// The monitor's operations are paths of moves: what each does, store by store. All of it is in specs/.
#![tactic(auto)]
