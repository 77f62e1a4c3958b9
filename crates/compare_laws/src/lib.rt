// One table's records up to another's, record by record. Laws only.
#![tactic(auto)]
