// What a write keeps of the tree of buckets; no code.
#![tactic(auto)]
