// Two computers beside each other: what a space reads depends on nothing that others do. All of it is in specs/.
#![tactic(auto)]
