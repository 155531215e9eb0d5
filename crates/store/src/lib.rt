// The calls over lent words (document 01, "Calls and their replies"): load, insert, mark, hold, the held-pair question, list; the
// insertion of a sheet (document 02, CR 5); and a book as a file (document 02, CR 3): written, and read. None has a `requires`. Each
// contract says by equations with the definitions of crate calls what is replied and what every lent word and byte then holds, for
// every input. They are calls of the system (system/specs/System.antt), of which `runs_keep` (demands/proofs/RunsKeep.antt) speaks.
#![tactic(auto)]

pub use file_read::read_file;
pub use file_write::write_file;
pub use held_call::{hold, question};
pub use insert_call::{insert, insert_sheet};
pub use list_call::list;
pub use load_call::load;
pub use mark_call::mark;
