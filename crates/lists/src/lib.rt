// Lists as docs/RULES.md uses them: definitions in specs/, laws in proofs/. No code.
#![tactic(auto)]
