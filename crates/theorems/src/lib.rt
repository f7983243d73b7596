// What holds over several crates at once. There is no code here: the statement is in specs/, its proof in proofs/.
#![tactic(auto)]
