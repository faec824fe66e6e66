// No code: what the Rust answers to small histories and images, computed out of the book by the proof checker.

#![tactic(auto)]
