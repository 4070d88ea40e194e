// The table of hands (01) has no code: lines of it, scored whole, are theorems. It stands apart from Score, whose edits need not compute it again.
#![tactic(auto)]
