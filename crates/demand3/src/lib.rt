// No code: demand 3. A later writer may raise the minor version and add sections of unknown kinds, outside the reserved range; its file opens exactly if the
// copy without them does, and every key gets the same answer from both.
#![tactic(auto)]
