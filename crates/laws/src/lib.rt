// Laws of the rules that code and promises cite; no code.
#![tactic(auto)]
