//! Each public call of `pvs_sequent`, `pvs_rules_logic` and `pvs_replay` once, and cases with their answers written out by
//! hand.
//!
//! A test makes the store, and a function that borrows it has the calls with `?` and the assertions:
//! each way out of a function that owns a store drops it, which is dear to prove. Sequents likewise.

mod scripts;
mod sequents;
mod steps;
