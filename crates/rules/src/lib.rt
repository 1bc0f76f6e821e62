// Definitions and laws alone: the rules of recording, and what they keep. `recording` has the code that follows them.
#![tactic(auto)]
