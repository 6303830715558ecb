// The entries that are proved: specs/Entries.antt has the table and its claim. There is no code here.
#![tactic(auto)]
