// No code: what the users buy, stated over the public definitions and contracts. docs/PROMISES.md says each in plain words.
#![tactic(auto)]
