// What two reflections have alike (specs/Noninterference.antt); no code.
#![tactic(auto)]
