// What is proved of the walk of document 01, a file for each sentence. All of it is in specs/.
#![tactic(auto)]
