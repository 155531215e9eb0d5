// Whether bytes of the form are the file of a sound book (document 02, CR 3), decided from the bytes alone.
#![tactic(auto)]

pub mod judge;
