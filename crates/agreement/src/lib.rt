// No code: what the workbench and the release desk may rely on together. specs/SameEdges: whenever the full check passes,
// both see the same edges. specs/Changed: what the checksums say of a changed section.
#![tactic(auto)]
