// The flat machine shows the window that the rules speak of. Theorems only, in specs/.
#![tactic(auto)]
