// The file that the writer makes of a heading and edges, as a definition. It has no code: see specs/.
#![tactic(auto)]
