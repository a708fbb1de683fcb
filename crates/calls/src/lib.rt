// No code: what the calls over bytes answer, and the laws about it.
#![tactic(auto)]
