// The rules of the game stated a second time, so that one mistake in the ledger and in the code alike is not proved: by what has happened, and by
// cases. All of it is in specs/; there is no function here.
#![tactic(auto)]
