// The folded piece: definitions and what is known of them. The functions are in fold.
#![tactic(auto)]
