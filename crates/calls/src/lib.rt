// Every exported call by its name, and the demands on lists of them: definitions and theorems, no code.

#![tactic(auto)]
