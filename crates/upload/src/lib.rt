// Upload: a payload read, relocated in the lowest free slot and put last in the list.
#![tactic(auto)]

pub mod upload;
