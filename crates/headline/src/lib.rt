//! What it is that an image carries a program: definitions for the contracts of the compiler.
#![tactic(auto)]
