// What the handset says of a score (SPEECH, Messages), and what can be had back from it: definitions and theorems alone, no functions.
#![tactic(auto)]
