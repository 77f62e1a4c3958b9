// Schemas and tables by the number of fields, and turned from one number into another. Laws only.
#![tactic(auto)]
