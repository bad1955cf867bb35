// What the promises of the public calls (rules/specs/Calls) say together: theorems alone. No code.
#![tactic(auto)]
