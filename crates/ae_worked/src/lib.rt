//! Worked programs as data, and what the rules and the meaning say of them. No code.
#![tactic(auto)]
