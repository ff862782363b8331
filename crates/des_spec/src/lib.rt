// The definitions of DES, triple DES and the signatures, and their laws. No code.
#![tactic(auto)]
