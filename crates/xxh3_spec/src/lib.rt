// The public specification of XXH3-64 as definitions, with vectors. It has no code: see specs/.
#![tactic(auto)]
