// What is proved of the definitions of document 03, a file for each sentence. All of it is in specs/.
#![tactic(auto)]
