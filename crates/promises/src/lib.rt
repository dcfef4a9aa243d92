// No function: what is shown here is about the definitions, and through the functions' promises about calls of them.
#![tactic(auto)]
