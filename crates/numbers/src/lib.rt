//! The arithmetic of 32 bits that the meaning of every language cites. It has definitions alone.
#![tactic(auto)]
