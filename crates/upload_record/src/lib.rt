// The record that an upload enters, and its id in the id store.
#![tactic(auto)]

pub mod enter;
