// Scanners of a sheet's text: how far what begins at a place reaches (document 02, CR 1). Each contract is an equation with the
// scanner of xml/specs/Scan.antt, of the text from that place on.
#![tactic(auto)]

pub mod bodies;
pub mod runs;
pub mod strings;
