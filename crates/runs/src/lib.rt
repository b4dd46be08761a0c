// A file that is read in steps, each over what was read of it so far. Definitions and laws, no code.
#![tactic(auto)]
