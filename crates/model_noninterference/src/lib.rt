// What a guest reads depends on nothing that another does: two runs of the model, side by side. All of it is in specs/.
#![tactic(auto)]
