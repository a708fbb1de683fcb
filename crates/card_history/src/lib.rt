// No code: histories of cards over the calls' own definitions, and demand 3 of every entry over them.
#![tactic(auto)]
