#![tactic(auto)]

// Document 01's cases marked P, proved about the definitions: specs/Cases.antt. Nothing runs.
