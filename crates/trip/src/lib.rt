// Whole streams, of the input and of the result: what is written reads back, and what is read is written so. Theorems only, in specs/.
#![tactic(auto)]
