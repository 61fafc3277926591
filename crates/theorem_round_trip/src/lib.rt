// What is written reads back (specs/RoundTrip.antt); no code.
#![tactic(auto)]
