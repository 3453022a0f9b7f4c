// No code: what is read from a file that was laid out (frame/specs/Layout). The writer's files and the copies of demand 3 are
// such files.
#![tactic(auto)]
