// The calls on memory, lists of calls, and the ledger: definitions. No code.
#![tactic(auto)]
