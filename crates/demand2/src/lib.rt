// No code: the writer's file, read. For each batch without fault within the limits, the file passes the full check, reads out
// to that batch, and every key is given its written partners.
#![tactic(auto)]
