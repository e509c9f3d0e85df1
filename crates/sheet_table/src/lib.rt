// Tables that a spreadsheet saved, and the texts that they are: definitions and laws, no code.
#![tactic(auto)]
