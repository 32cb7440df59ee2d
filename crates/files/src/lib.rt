// The contents of tables and their files: definitions in specs/, and in proofs/ that an edition and a content have one legal file.
#![tactic(auto)]
