// Document 03 as definitions, and what is proved of them: all of it is in specs/.
#![tactic(auto)]
