// What the words stand for: definitions in specs/ and their laws; no code.

#![tactic(auto)]
