// Laws of sheets: what the reader of xml/specs accepts and refuses is what the grammar says (document 02, CR 1). No code.
#![tactic(auto)]
