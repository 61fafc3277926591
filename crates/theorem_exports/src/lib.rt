// Demands 2 and 3 of the functions that C and Rust link (specs/Noninterference.antt, RoundTrip.antt); no code.
#![tactic(auto)]
