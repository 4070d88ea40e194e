// How many practice cards there are (02, S-9): theorems, and a crate of its own because the count is a long computation.
#![tactic(auto)]
