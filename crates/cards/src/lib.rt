// Practice cards (02, S-9): what a card is, and the one list of them all; `card_counts` says how many there are, `card_writer` writes them.
#![tactic(auto)]
