// No code: what joins a strip of one square to the book.
#![tactic(auto)]
